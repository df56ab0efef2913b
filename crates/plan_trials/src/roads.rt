//! Trials of roads: worked cases, random maps, rows both ways, and hierarchies over hostile maps. It has nothing but tests.
#[cfg(test)]
mod adaptations;
#[cfg(test)]
mod contractions;
#[cfg(test)]
mod hierarchies;
#[cfg(test)]
mod hostile;
#[cfg(test)]
mod maps;
#[cfg(test)]
mod times;
