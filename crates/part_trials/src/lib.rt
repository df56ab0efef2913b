//! Trials of texts and of the outside (`texts`), and of the waiting list, the lock and the book of requests. It has nothing but tests.
#![tactic(auto)]

#[cfg(test)]
mod locks;
#[cfg(test)]
mod requests;
#[cfg(test)]
mod texts;
#[cfg(test)]
mod waiting;
