//! Trials of bookings, and of orders to idle vehicles. It has nothing but tests.
#[cfg(test)]
mod desk_feeds;
#[cfg(test)]
mod desks;
#[cfg(test)]
mod orders;
#[cfg(test)]
mod sheet_texts;
