//! Trials of the outside and of texts: sources and sinks, lines, maps, fleet files, commands and logs. It has nothing but tests.
#[cfg(test)]
mod commands;
#[cfg(test)]
mod entries;
#[cfg(test)]
mod fleets;
#[cfg(test)]
mod lines;
#[cfg(test)]
mod maps;
#[cfg(test)]
mod pieces;
#[cfg(test)]
mod ports;
#[cfg(test)]
mod read_back;
#[cfg(test)]
mod reader;
