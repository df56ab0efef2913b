//! Companies that share one dispatcher: rounds of hand-made quotes, a part of a round, three companies that seat
//! rides together, a company that two brokers share, companies that have moved on, quote nothing or win nothing, and a day of two
//! companies over a generated city, whose logs are audited.
#![tactic(auto)]

#[cfg(test)]
mod city_days;
#[cfg(test)]
mod companies;
#[cfg(test)]
mod no_wins;
#[cfg(test)]
mod off_duty;
#[cfg(test)]
mod one_vehicle;
#[cfg(test)]
mod outset;
#[cfg(test)]
mod restrictions;
#[cfg(test)]
mod rounds;
#[cfg(test)]
mod shared_company;
#[cfg(test)]
mod sides;
#[cfg(test)]
mod three_companies;
