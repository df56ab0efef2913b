//! How a board stands when a session goes on from it: which of its actors have not ended, and how many lines its feeds may still have.
ghost use Rattle.std.specs.Prelude.{◌≡◌, ◌&&◌, ◌<◌, ◌≤◌, length, MatchBool};
ghost use Rattle.std.specs.List.{filter};
ghost use Rattle.ride_model.specs.declared.command.Actor.TheVariants.{Feed};
ghost use Rattle.ride_model.specs.declared.entry.Entry.{Entry};
ghost use Rattle.ride_model.specs.History.{fed_commands};
ghost use Rattle.ride_model.specs.State.{is_actor};
ghost use Rattle.command_lines.specs.Limits.{most_lines};
ghost use Rattle.model_laws.specs.history_laws.Start.{is_fed};
ghost use Rattle.live_sessions.specs.Resuming.{HaveFewCommands, breaks_off, is_broken_off};
ghost use Rattle.live_sessions.specs.inner.Stages.{AreLiving, IsFeedStart};

use board_core::Board;
use command_lines::{FEED_LIMITS, FeedForm};
use ride_model::{Actor, Ending, Entry, Event};

/// A feed when a session begins: whether it has not ended, and how it is read if so.
#[derive(Clone, Copy)]
pub(crate) struct FeedStart {
    pub(crate) lives: bool,
    pub(crate) form: FeedForm,
}

/// Which actors of a board have not ended, and whether something has happened on it.
#[derive(Clone, Copy)]
pub(crate) struct Living {
    pub(crate) riders: FeedStart,
    pub(crate) drivers: FeedStart,
    pub(crate) first: bool,
    pub(crate) second: bool,
    pub(crate) has_begun: bool,
}

/// Returns which actors of a board have not ended.
pub(crate) fn living_on(board: &Board<'_>) -> Living
    ensures { AreLiving board.now result }
{
    let mut drivers = feed_start(board, 2);
    drivers.lives &= board.feeds() == 2;
    Living {
        riders: feed_start(board, 1),
        drivers,
        first: !board.has_ended(Actor::Desk(1)),
        second: !board.has_ended(Actor::Desk(2)),
        has_begun: !board.entries().is_empty(),
    }
}

/// Returns whether none of a board's feeds gave more commands than it may have lines, as is so on the board of each session's log.
/// O(n) in its entries.
pub fn have_few_commands(board: &Board<'_>) -> bool
    ensures { MatchBool result (HaveFewCommands board.now.feeds board.now.history)
        (HaveFewCommands board.now.feeds board.now.history → ⊥) }
{
    let entries = board.entries();
    has_few_commands(entries, 1) && (board.feeds() == 1 || has_few_commands(entries, 2))
}

// Whether these entries answer no more commands of a feed than it may have lines.
fn has_few_commands(entries: &[Entry], feed: u8) -> bool
    ensures { MatchBool result (length (fed_commands feed entries.now) ≤ most_lines)
        (most_lines < length (fed_commands feed entries.now)) }
{
    count_commands(entries, feed) <= FEED_LIMITS.lines as usize
}

// How a feed of a board stands. It may have as many lines as a feed that begins, less those that were answered before.
fn feed_start(board: &Board<'_>, feed: u8) -> FeedStart
    ensures { IsFeedStart board.now feed result }
{
    let answered = count_commands(board.entries(), feed);
    let lines = (FEED_LIMITS.lines as usize).saturating_sub(answered);
    FeedStart {
        lives: !board.has_ended(Actor::Feed(feed)),
        form: FeedForm {
            log: board.log(),
            lines: lines as u32,
        },
    }
}

// How many commands of a feed these entries answer.
fn count_commands(entries: &[Entry], feed: u8) -> usize
    ensures { result ≡ length (fed_commands feed entries.now) }
{
    count_made(entries, feed)
}

// How many of these entries answer a command of a feed.
fn count_made(entries: &[Entry], feed: u8) -> usize
    ensures { result ≡ length (filter (λ (entry : Entry).
        is_actor entry.actor (Feed feed) && is_fed entry.event) entries.now) }
{
    entries
        .iter()
        .filter(|entry| is_command_of(entry, feed))
        .count()
}

// Whether an entry answers a command of a feed.
fn is_command_of(entry: &Entry, feed: u8) -> bool
    ensures { result ≡ (is_actor entry.now.actor (Feed feed) && is_fed entry.now.event) }
{
    entry.actor == Actor::Feed(feed) && is_fed(&entry.event)
}

// Whether an event answers a command.
fn is_fed(event: &Event) -> bool
    ensures { result ≡ is_fed event.now }
{
    matches!(event, Event::Fed { .. })
}

/// Whether one of these entries cuts its actor off, or gives a batch up.
pub(crate) fn is_broken_off(entries: &[Entry]) -> bool
    ensures { result ≡ is_broken_off entries.now }
{
    entries.iter().any(|entry| breaks_off(entry))
}

// Whether an entry cuts its actor off, or gives a batch up.
fn breaks_off(entry: &Entry) -> bool
    ensures { result ≡ breaks_off entry.now.event }
{
    match &entry.event {
        Event::Finish { ending } => matches!(ending, Ending::Cut),
        Event::Abandoned { batch: _ } => true,
        _ => false,
    }
}
