//! Trials of batches, certificates, pairings, seatings and prices: worked cases, and small batches for them; and of bookings and orders
//! to idle vehicles (`desk`). It has nothing but tests.
#![tactic(auto)]

#[cfg(test)]
mod batch_certificates;
#[cfg(test)]
mod desk;
#[cfg(test)]
mod grid_certificates;
#[cfg(test)]
mod outcomes;
#[cfg(test)]
mod pairings;
#[cfg(test)]
mod prices;
#[cfg(test)]
mod seatings;
#[cfg(test)]
mod small_batches;
#[cfg(test)]
mod turns;
