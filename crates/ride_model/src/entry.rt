//! Entries of the history.
ghost use Rattle.std.specs.Prelude.{◌≡◌, IfOk};

use crate::{Actor, Command, ItemList, NoMemory, Reply, Seat};

/// Ids, in order.
pub type IdList = ItemList<u64>;
/// Vehicles' ids with their versions, in fleet order.
pub type VersionList = ItemList<(u64, u64)>;
/// Seats, in the batch's order of requests.
pub type SeatList = ItemList<Seat>;
/// Ids with their amounts.
pub type AmountList = ItemList<(u64, u64)>;
/// Requests' ids with their outcomes, in the batch's order.
pub type OutcomeList = ItemList<(u64, Outcome)>;

/// What a commit makes of a request of its batch.
#[derive(Clone, Copy, PartialEq, Eq)]
pub enum Outcome {
    Confirmed,
    /// The seating leaves it out.
    Away,
    /// It was cancelled since the batch was opened.
    Gone,
    /// Its vehicle changed since the batch was opened: the version that the batch names, and the one that stands.
    Moved { named: u64, stands: u64 },
    /// The priced start lies before the clock.
    Behind { start: u64, now: u64 },
}

/// How an actor ended.
#[derive(Clone, Copy, PartialEq, Eq)]
pub enum Ending {
    Whole,
    Cut,
}

/// An event of the history, with who made it.
#[derive(Drop)]
pub struct Entry {
    pub actor: Actor,
    pub event: Event,
}

/// What happened.
#[derive(Drop)]
pub enum Event {
    /// A feed's command was answered.
    Fed {
        command: Command,
        reply: Reply,
    },
    /// The actor ended.
    Finish {
        ending: Ending,
    },
    /// A desk opened a batch.
    Opened {
        batch: u64,
        time: u64,
        requests: IdList,
        plans: VersionList,
    },
    /// A desk closed its batch by a seating of least cost, as the prices of its requests and of the vehicles prove.
    Committed {
        batch: u64,
        cost: u64,
        seats: SeatList,
        prices: AmountList,
        pays: AmountList,
        outcomes: OutcomeList,
    },
    /// A desk gave its batch up for want of memory.
    Abandoned {
        batch: u64,
    },
}

impl Entry {
    /// An equal entry.
    pub fn try_copy(&self) -> Result<Entry, NoMemory>
        ensures { IfOk result (λ copy. copy ≡ self.now) }
    {
        let event = self.event.try_copy()?;
        Ok(Entry {
            actor: self.actor,
            event,
        })
    }
}

impl Event {
    /// An equal event.
    pub fn try_copy(&self) -> Result<Event, NoMemory>
        ensures { IfOk result (λ copy. copy ≡ self.now) }
    {
        match self {
            Event::Fed { command, reply } => Ok(Event::Fed {
                command: *command,
                reply: reply.copy(),
            }),
            Event::Finish { ending } => Ok(Event::Finish { ending: *ending }),
            Event::Opened {
                batch,
                time,
                requests,
                plans,
            } => Ok(Event::Opened {
                batch: *batch,
                time: *time,
                requests: requests.try_copy()?,
                plans: plans.try_copy()?,
            }),
            Event::Committed {
                batch,
                cost,
                seats,
                prices,
                pays,
                outcomes,
            } => Ok(Event::Committed {
                batch: *batch,
                cost: *cost,
                seats: seats.try_copy()?,
                prices: prices.try_copy()?,
                pays: pays.try_copy()?,
                outcomes: outcomes.try_copy()?,
            }),
            Event::Abandoned { batch } => Ok(Event::Abandoned { batch: *batch }),
        }
    }
}
