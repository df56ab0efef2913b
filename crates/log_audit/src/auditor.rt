//! What an audit keeps, and how it judges an entry.
ghost use Rattle.std.specs.Prelude.{◌≡◌, ◌≢◌, ◌<◌, ◌++◌, ◌∷◌, [], None, Some, List, length, IfOk};
ghost use Rattle.ride_model.specs.declared.entry.Entry.{Entry};
ghost use Rattle.ride_model.specs.Text.{IsOneOrTwo, entry_line};
ghost use Rattle.log_audit.specs.inner.Auditing.{IsAuditing, IsJudged, IsLineOf};
ghost use Rattle.log_audit.specs.declared.limits.TheConstants.{LOG_LIMITS};

use crate::Why;
use crate::commits::Commit;
use crate::fault::Fault;
use crate::open_batches::OpenBatches;
use crate::outset::Outset;
use board_core::Board;
use pricing_workers::{Pricer, Search, workers_at_hand};
use ride_model::{Actor, Entry, Event, NoMemory};
use std::alloc::Global;
use std::thread::Threads;
use trip_log::{Head, spells};

/// The history so far, replayed on a board, with the batches that are open and what prices them.
pub(crate) struct Auditor<'r> {
    pub(crate) board: Board<'r>,
    pub(crate) batches: OpenBatches,
    pub(crate) pricing: Pricer<'r>,
    /// How the places of pairs are searched.
    pub(crate) search: Search,
    /// The version of the log.
    pub(crate) log: u8,
}

impl Drop for Auditor<'_> {
    fn drop(self) {
        let Auditor {
            board,
            batches,
            pricing,
            search: _,
            log: _,
        } = self;
        drop(board);
        drop(batches);
        drop(pricing);
    }
}

impl<'r> Auditor<'r> {
    /// An audit of which no entry is judged, and which searches places so.
    pub(crate) fn new(
        rt: &impl Threads,
        alloc: Global,
        outset: Outset<'r>,
        head: Head,
        search: Search,
    ) -> Result<Auditor<'r>, NoMemory>
        requires feeds { IsOneOrTwo head.feeds }
        requires desks { IsOneOrTwo head.desks }
        ensures start { IfOk result (λ auditor. auditor.board.start ≡ outset.entry) }
        ensures feeds { IfOk result (λ auditor. auditor.board.feeds ≡ head.feeds) }
        ensures desks { IfOk result (λ auditor. auditor.board.desks ≡ head.desks) }
        ensures history { IfOk result (λ auditor. auditor.board.history ≡ []) }
        ensures auditing { IfOk result IsAuditing }
    {
        let Outset {
            roads,
            settings,
            fleet,
        } = outset;
        let pricing = Pricer::new(alloc, roads, workers_at_hand(rt))?;
        let log = settings.log;
        let board = Board::new(alloc, roads, settings, fleet, head.feeds, head.desks)?;
        Ok(Auditor {
            board,
            batches: OpenBatches::none(),
            pricing,
            search,
            log,
        })
    }

    /// The board and the open batches.
    pub(crate) fn into_parts(self) -> (Board<'r>, OpenBatches)
        ensures board { result.0 ≡ self.entry.board }
        ensures batches { result.1 ≡ self.entry.batches }
    {
        let Auditor {
            board,
            batches,
            pricing,
            search: _,
            log: _,
        } = self;
        drop(pricing);
        (board, batches)
    }

    /// Judges an entry and its line: appends it where it is right, or answers the first word that it does not meet, and what was due.
    #[tactic(auto, using(crate::proofs::Legality::fault_actor))]
    pub(crate) fn judge<R: Threads + Sync>(
        &mut self,
        rt: &R,
        entry: Entry,
        line: &[u8],
    ) -> Result<Option<Fault>, NoMemory>
        requires auditing { IsAuditing self.old }
        requires few { length self.old.board.history < LOG_LIMITS.lines }
        requires line { IsLineOf self.old.board.start.settings.log entry line.now }
        ensures { IfOk result (IsJudged self.old self.new entry) }
    {
        let Entry { actor, event } = entry;
        match event {
            Event::Fed { command, reply: _ } => match actor {
                Actor::Feed(feed) => self.judge_fed(feed, &command, line),
                Actor::Desk(_) => Ok(Some(Fault::of(Why::Actor))),
            },
            Event::Finish { ending } => Ok(self.judge_end(actor, ending)),
            Event::Opened { .. } => match actor {
                Actor::Desk(desk) => self.judge_opened(desk, line),
                Actor::Feed(_) => Ok(Some(Fault::of(Why::Actor))),
            },
            Event::Committed {
                batch,
                cost,
                seats,
                prices,
                pays,
                outcomes: _,
            } => {
                let commit = Commit {
                    number: batch,
                    cost,
                    seats,
                    prices,
                    pays,
                };
                match actor {
                    Actor::Desk(desk) => self.judge_committed(rt, desk, commit, line),
                    Actor::Feed(_) => Ok(Some(Fault::of(Why::Actor))),
                }
            }
            Event::Abandoned { batch } => match actor {
                Actor::Desk(desk) => Ok(self.judge_abandoned(desk, batch)),
                Actor::Feed(_) => Ok(Some(Fault::of(Why::Actor))),
            },
        }
    }

    /// None where the line is that of the history's last entry, and else the fault that says why not.
    pub(crate) fn unless_told(&self, line: &[u8], why: Why) -> Option<Fault>
        requires { self.now.log ≡ self.now.board.start.settings.log }
        ensures told { (entries : List Entry) (last : Entry)
            → self.now.board.history ≡ entries ++ last ∷ []
            → result ≡ None → entry_line self.now.log last ≡ line.now ++ 10 ∷ [] }
        ensures not_told { (entries : List Entry) (last : Entry)
            → self.now.board.history ≡ entries ++ last ∷ []
            → result ≢ None → (result ≡ Some (record { why = why; batch = None }))
            × (entry_line self.now.log last ≢ line.now ++ 10 ∷ []) }
    {
        match self.board.entries().last() {
            Some(entry) if spells(entry, self.log, line) => None,
            _ => Some(Fault::of(why)),
        }
    }
}
