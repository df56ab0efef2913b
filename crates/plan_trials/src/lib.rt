//! Trials of lists and queues, roads (`roads`), plans, offers and cities, and rows worked by hand (`worked_rows`). Its library is the small roads, rides and
//! vehicles and the town (`trial_town`) that other trials and the bench share.
#![tactic(auto)]

#[cfg(test)]
mod cities;
#[cfg(test)]
mod drawn_plans;
#[cfg(test)]
mod limits;
pub mod line_road;
#[cfg(test)]
mod links;
#[cfg(test)]
mod offers;
#[cfg(test)]
mod queues;
#[cfg(test)]
mod roads;
#[cfg(test)]
mod slack;
#[cfg(test)]
mod stops;
pub mod trial_town;
#[cfg(test)]
mod values;
pub mod worked_rows;
