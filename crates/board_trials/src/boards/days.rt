//! Days of a board of one vehicle: commands, and batches that desks open and commit.
ghost use Rattle.std.specs.Prelude.{◌≡◌, ◌≢◌, ◌<◌, ◌≤◌, ℕ, length, true, Some, Ok, All, IfSome, IsNone};
ghost use Rattle.ride_model.specs.History.{fed_commands};
ghost use Rattle.ride_model.specs.declared.entry.Event.TheVariants.{Finish};
ghost use Rattle.ride_model.specs.Legal.{IsLegalEvent, IsNumbered, MayEnd, all_feeds_ended};
ghost use Rattle.ride_model.specs.Seating.{BatchCopy};
ghost use Rattle.ride_model.specs.State.{open_batch_numbered};
ghost use Rattle.ride_model.specs.Text.{HasLine, IsOneOrTwo, IsSpelledCommand};
ghost use Rattle.board_core.specs.declared.opening.Opening.{Opening};
ghost use Rattle.board_core.specs.Recorded.{state_of};

use adaptive_roads::Roads;
use batch_commit::Batch;
use board_core::{Board, Opening};
use plan_trials::trial_town::{fleet, settings};
use pricing_workers::{Pricer, seat_batch};
use ride_model::{Actor, Command, Ending, Entry, NoMemory, RequestState};
use ride_ports::{MemSink, OpenGate};
use std::alloc::Global;
use std::marker::Model;
use std::process::Abort;
use std::thread::Threads;
use trip_log::print_entry;

/// The numbers of a command are below this.
const LIMIT: u64 = 1_000_000_000_000_000_000;

/// What a desk gets that asks for a batch.
#[derive(Clone, Copy)]
enum Got {
    Batch,
    Idle,
    Ended,
}

/// What happens to a board.
pub(super) enum Step {
    /// A feed gives a command.
    Tell(u8, Command),
    /// A desk opens its next batch.
    Open(u8),
    /// A desk finds no batch, where one may be asked for yet.
    FindNone(u8),
    /// A desk finds no batch, where none will be asked for any more.
    FindEnd(u8),
    /// A desk commits its open batch.
    Commit(u8),
    /// A desk gives its open batch up.
    GiveUp(u8),
    /// A feed ends, or a desk whose batch is not open.
    End(Actor, Ending),
    /// Room for so many entries is made.
    Reserve(u32),
    /// Nothing, and this is what the board shows.
    Show(Look),
}

/// What a board shows of its state.
pub(super) struct Look {
    /// How many batches were asked for.
    pub(super) asked: u64,
    /// How many batches were opened.
    pub(super) opened: u64,
    pub(super) now: u64,
    pub(super) entries: usize,
    /// The open batch of desk 1.
    pub(super) open: Option<u64>,
    /// What has become of request 7.
    pub(super) request: Option<RequestState>,
    /// Whether feed 1 has ended.
    pub(super) feed_ended: bool,
    /// Whether desks 1 and 2 have ended.
    pub(super) desks_ended: (bool, bool),
    pub(super) finished: bool,
}

/// A board, what its batches are priced by, and each desk's open batch.
pub(super) struct Day<'r> {
    board: Board<'r>,
    pricer: Pricer<'r>,
    /// The version of the log.
    log: u8,
    first: Option<Batch>,
    second: Option<Batch>,
}

impl<'r> Model for Day<'r> {
    ghost use Rattle.std.specs.Prelude.{◌≡◌, Some, IfSome};
    ghost use Rattle.ride_model.specs.Seating.{BatchCopy};
    ghost use Rattle.ride_model.specs.State.{open_batch_numbered};
    ghost use Rattle.board_core.specs.Recorded.{Recorded, state_of};

    ghost Value = { Recorded };

    ghost view = { λ d. d.board };

    ghost invariant = { λ d. (d.pricer ≡ d.board.start.roads) × (d.log ≡ d.board.start.settings.log)
        × IfSome d.first (λ (b : BatchCopy). (b.desk ≡ 1) × (open_batch_numbered (state_of d.board) b.desk b.number ≡ Some b))
        × IfSome d.second (λ (b : BatchCopy). (b.desk ≡ 2) × (open_batch_numbered (state_of d.board) b.desk b.number ≡ Some b)) };
}

impl Drop for Day<'_> {
    fn drop(self) {
        let Day {
            board,
            pricer,
            log: _,
            first,
            second,
        } = self;
        drop(board);
        drop(pricer);
        drop(first);
        drop(second);
    }
}

impl<'r> Day<'r> {
    /// A day of one idle vehicle at node 1, before anything happened.
    pub(super) fn new(
        rt: &impl Abort,
        alloc: Global,
        roads: &'r Roads,
        feeds: u8,
        desks: u8,
    ) -> Day<'r>
        requires map { roads.now.nodes ≡ 4 }
        requires feeds { IsOneOrTwo feeds }
        requires desks { IsOneOrTwo desks }
    {
        let settings = settings(1);
        let log = settings.log;
        let Ok(fleet) = fleet(alloc, roads) else {
            panic!(rt; "there is memory");
        };
        let Ok(board) = Board::new(alloc, roads, settings, fleet, feeds, desks) else {
            panic!(rt; "there is memory");
        };
        let Ok(pricer) = Pricer::new(alloc, roads, 2) else {
            panic!(rt; "there is memory");
        };
        Day {
            board,
            pricer,
            log,
            first: None,
            second: None,
        }
    }

    /// Whether it is a day of so many feeds and desks, and of vehicle 1 alone, at node 1.
    pub(super) fn is_of(&self, feeds: u8, desks: u8) -> bool {
        let Some(vehicle) = self.board.vehicle(1) else {
            return false;
        };
        vehicle.at == 1
            && self.board.vehicle(2).is_none()
            && self.board.feeds() == feeds
            && self.board.desks() == desks
    }

    /// Takes a step, with ample memory.
    pub(super) fn take<R: Threads + Sync + Abort>(&mut self, rt: &R, step: &Step) {
        match step {
            Step::Tell(feed, command) => tell(rt, &mut self.board, *feed, *command),
            Step::Open(desk) => assert!(rt; matches!(self.open(rt, *desk), Ok(Got::Batch))),
            Step::FindNone(desk) => assert!(rt; matches!(self.open(rt, *desk), Ok(Got::Idle))),
            Step::FindEnd(desk) => assert!(rt; matches!(self.open(rt, *desk), Ok(Got::Ended))),
            Step::Commit(desk) => self.commit(rt, *desk),
            Step::GiveUp(desk) => self.abandon(rt, *desk),
            Step::End(actor, ending) => end(rt, &mut self.board, *actor, *ending),
            Step::Reserve(entries) => assert!(rt; self.board.reserve(*entries).is_ok()),
            Step::Show(look) => assert!(rt; shows(&self.board, look)),
        }
    }

    // Lets a desk open its next batch.
    fn open(&mut self, rt: &impl Abort, desk: u8) -> Result<Got, NoMemory> {
        match open(rt, &mut self.board, desk)? {
            Opening::Idle => Ok(Got::Idle),
            Opening::Ended => Ok(Got::Ended),
            Opening::Batch(batch) if desk == 1 => {
                self.first = Some(batch);
                Ok(Got::Batch)
            }
            Opening::Batch(batch) => {
                self.second = Some(batch);
                Ok(Got::Batch)
            }
        }
    }

    // Lets a desk commit its open batch.
    fn commit<R: Threads + Sync + Abort>(&mut self, rt: &R, desk: u8) {
        if desk == 1 {
            commit(rt, &mut self.board, &mut self.pricer, &mut self.first);
        } else {
            commit(rt, &mut self.board, &mut self.pricer, &mut self.second);
        }
    }

    // Lets a desk give its open batch up.
    fn abandon(&mut self, rt: &impl Abort, desk: u8) {
        if desk == 1 {
            abandon(rt, &mut self.board, &mut self.first);
        } else {
            abandon(rt, &mut self.board, &mut self.second);
        }
    }

    /// The lines of all entries.
    pub(super) fn lines(&self, rt: &impl Abort, alloc: Global) -> MemSink<'static> {
        let mut lines = MemSink::new(alloc, 10_000, &[], &[]).expect(rt, "there is memory");
        print_all(rt, self.board.entries(), self.log, &mut lines);
        lines
    }
}

fn print_all(rt: &impl Abort, entries: &[Entry], log: u8, lines: &mut MemSink<'_>)
    requires log { IsOneOrTwo log }
    requires have_lines { All (HasLine log) entries.now }
{
    for entry in entries {
        assert!(rt; print_entry(entry, log, lines).is_ok());
    }
}

// Whether a board shows this.
fn shows(board: &Board<'_>, look: &Look) -> bool {
    board.asked() == look.asked
        && board.opened() == look.opened
        && board.now() == look.now
        && board.entries().len() == look.entries
        && board.open_of(1) == look.open
        && board.request_state(7) == look.request
        && board.has_ended(Actor::Feed(1)) == look.feed_ended
        && board.has_ended(Actor::Desk(1)) == look.desks_ended.0
        && board.has_ended(Actor::Desk(2)) == look.desks_ended.1
        && board.finished() == look.finished
}

// Whether the numbers of a command have at most 18 digits, and no chairs are asked for.
pub(super) fn is_spelled(command: &Command) -> bool
    ensures { result ≡ true → (log : ℕ) → IsSpelledCommand log command.now }
{
    match *command {
        Command::Request {
            id,
            from,
            to,
            seats,
            latest,
            longest,
            chairs,
        } => {
            id < LIMIT
                && from < LIMIT
                && to < LIMIT
                && seats < LIMIT
                && latest < LIMIT
                && longest < LIMIT
                && chairs == 0
        }
        Command::At {
            vehicle,
            node,
            time,
        } => vehicle < LIMIT && node < LIMIT && time < LIMIT,
        Command::Cancel { id: number }
        | Command::Done { vehicle: number }
        | Command::On { vehicle: number }
        | Command::Off { vehicle: number }
        | Command::Clock { time: number }
        | Command::Bad { line: number } => number < LIMIT,
        Command::Ask => true,
    }
}

// How many entries there are, of which no more are commands of a feed.
fn count(board: &Board<'_>) -> usize
    ensures { (feed : ℕ) → length (fed_commands feed board.now.history) ≤ result }
{
    board.entries().len()
}

/// Gives a feed's command, with ample memory.
pub(super) fn tell(rt: &impl Abort, board: &mut Board<'_>, feed: u8, command: Command)
    ensures start { board.new.start ≡ board.old.start }
    ensures held { (b : BatchCopy)
        → open_batch_numbered (state_of board.old) b.desk b.number ≡ Some b
        → open_batch_numbered (state_of board.new) b.desk b.number ≡ Some b }
{
    assert!(rt; 1 <= feed && feed <= board.feeds());
    assert!(rt; !board.has_ended(Actor::Feed(feed)));
    assert!(rt; count(board) < 1_000_000_000);
    assert!(rt; is_spelled(&command));
    assert!(rt; board.apply(feed, &command).is_ok());
}

// What a desk gets that asks for a batch.
fn open(rt: &impl Abort, board: &mut Board<'_>, desk: u8) -> Result<Opening, NoMemory>
    ensures start { board.new.start ≡ board.old.start }
    ensures held { (b : BatchCopy)
        → open_batch_numbered (state_of board.old) b.desk b.number ≡ Some b
        → open_batch_numbered (state_of board.new) b.desk b.number ≡ Some b }
    ensures opened { (b : BatchCopy) → result ≡ Ok (Opening.Batch b)
        → (b.desk ≡ desk) × (open_batch_numbered (state_of board.new) b.desk b.number ≡ Some b) }
    ensures desk { (b : BatchCopy) → result ≡ Ok (Opening.Batch b) → IsOneOrTwo desk }
{
    assert!(rt; 1 <= desk && desk <= board.desks() && desk <= 2);
    assert!(rt; !board.has_ended(Actor::Desk(desk)));
    assert!(rt; board.open_of(desk).is_none());
    board.open_batch(desk)
}

/// The batch that a desk opens, which was asked for.
pub(super) fn opened(rt: &impl Abort, board: &mut Board<'_>, desk: u8) -> Batch
    ensures start { board.new.start ≡ board.old.start }
    ensures desk { result.desk ≡ desk }
    ensures held { open_batch_numbered (state_of board.new) result.desk result.number
        ≡ Some result }
{
    match open(rt, board, desk) {
        Ok(Opening::Batch(batch)) => batch,
        _ => panic!(rt; "a batch was asked for"),
    }
}

// Commits the batch that is kept.
fn commit<R: Threads + Sync + Abort>(
    rt: &R,
    board: &mut Board<'_>,
    pricer: &mut Pricer<'_>,
    kept: &mut Option<Batch>,
)
    requires held { IfSome kept.old
        (λ (b : BatchCopy). open_batch_numbered (state_of board.old) b.desk b.number ≡ Some b) }
    requires roads { pricer.old ≡ board.old.start.roads }
    ensures pricer { pricer.new ≡ pricer.old }
    ensures start { board.new.start ≡ board.old.start }
    ensures kept { IsNone kept.new }
    ensures others { (b : BatchCopy)
        → open_batch_numbered (state_of board.old) b.desk b.number ≡ Some b
        → IfSome kept.old (λ (closed : BatchCopy). b.desk ≢ closed.desk)
        → open_batch_numbered (state_of board.new) b.desk b.number ≡ Some b }
{
    let batch = kept.take();
    assert!(rt; batch.is_some());
    if let Some(batch) = batch {
        assert!(rt; close(rt, board, pricer, batch));
    }
}

// Commits an open batch, or gives it up where memory is wanting; answers whether it was committed.
fn close<R: Threads + Sync>(
    rt: &R,
    board: &mut Board<'_>,
    pricer: &mut Pricer<'_>,
    batch: Batch,
) -> bool
    requires held { open_batch_numbered (state_of board.old) batch.desk batch.number ≡ Some batch }
    requires roads { pricer.old ≡ board.old.start.roads }
    ensures pricer { pricer.new ≡ pricer.old }
    ensures start { board.new.start ≡ board.old.start }
    ensures others { (b : BatchCopy)
        → open_batch_numbered (state_of board.old) b.desk b.number ≡ Some b
        → b.desk ≢ batch.desk → open_batch_numbered (state_of board.new) b.desk b.number ≡ Some b }
{
    // This call tells that the history is legal.
    let _history = board.entries();
    match seat_batch(rt, batch, pricer, &OpenGate) {
        Ok(solved) => {
            board.commit(solved);
            true
        }
        Err(batch) => {
            board.abandon(batch);
            false
        }
    }
}

// Gives the batch up that is kept.
fn abandon(rt: &impl Abort, board: &mut Board<'_>, kept: &mut Option<Batch>)
    requires held { IfSome kept.old
        (λ (b : BatchCopy). open_batch_numbered (state_of board.old) b.desk b.number ≡ Some b) }
    ensures start { board.new.start ≡ board.old.start }
    ensures kept { IsNone kept.new }
    ensures others { (b : BatchCopy)
        → open_batch_numbered (state_of board.old) b.desk b.number ≡ Some b
        → IfSome kept.old (λ (closed : BatchCopy). b.desk ≢ closed.desk)
        → open_batch_numbered (state_of board.new) b.desk b.number ≡ Some b }
{
    let batch = kept.take();
    assert!(rt; batch.is_some());
    if let Some(batch) = batch {
        board.abandon(batch);
    }
}

// Ends an actor that may end so.
fn end(rt: &impl Abort, board: &mut Board<'_>, actor: Actor, ending: Ending)
    ensures start { board.new.start ≡ board.old.start }
    ensures held { (b : BatchCopy)
        → open_batch_numbered (state_of board.old) b.desk b.number ≡ Some b
        → open_batch_numbered (state_of board.new) b.desk b.number ≡ Some b }
{
    assert!(rt; may_end(board, actor, ending));
    board.end(actor, ending);
}

// Whether an actor may end so.
fn may_end(board: &Board<'_>, actor: Actor, ending: Ending) -> bool
    ensures { result ≡ true → IsLegalEvent board.now.feeds board.now.desks
        (state_of board.now) actor (Finish ending) }
{
    if board.has_ended(actor) {
        return false;
    }
    match actor {
        Actor::Feed(feed) => 1 <= feed && feed <= board.feeds(),
        Actor::Desk(desk) => may_desk_end(board, desk, ending),
    }
}

// Whether a desk that has not ended may end so.
fn may_desk_end(board: &Board<'_>, desk: u8, ending: Ending) -> bool
    ensures numbered { result ≡ true → IsNumbered board.now.desks desk }
    ensures may { result ≡ true → MayEnd board.now.feeds (state_of board.now) desk ending }
{
    if desk < 1 || board.desks() < desk || board.open_of(desk).is_some() {
        return false;
    }
    match ending {
        Ending::Cut => true,
        Ending::Whole => board.opened() == board.asked() && have_feeds_ended(board),
    }
}

// Whether all feeds have ended.
fn have_feeds_ended(board: &Board<'_>) -> bool
    ensures { result ≡ true → all_feeds_ended board.now.feeds (state_of board.now) ≡ true }
{
    // This call tells that there are one or two feeds.
    let _history = board.entries();
    board.has_ended(Actor::Feed(1)) && (board.feeds() == 1 || board.has_ended(Actor::Feed(2)))
}
