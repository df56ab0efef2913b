//! The passes of a shared board, from its start to its close.
ghost use Rattle.std.specs.Prelude.{◌≡◌, ◌≢◌, ◌+◌, true, false, [], ◌∷◌, IsOk, IfOk, IfSome, IsSomeAnd, MatchOption};
ghost use mathlib.Core.List.{IsPrefix};
ghost use Rattle.ride_model.specs.declared.command.Actor.TheVariants.{Feed, Desk};
ghost use Rattle.ride_model.specs.Legal.{IsLegal};
ghost use Rattle.ride_model.specs.Text.{HasText};
ghost use Rattle.model_laws.specs.history_laws.Start.{IsStart};
ghost use Rattle.turn_lock.specs.Knowledge.{after_join};
ghost use Rattle.turn_lock.specs.Passes.{MayEnter, knowledge};
ghost use Rattle.fleet_board.specs.inner.Passes.{IsPoint};
ghost use Rattle.fleet_board.specs.inner.Turns.{as_began};
ghost use Rattle.fleet_board.specs.inner.Sets.{IsNewPass, IsNewFeed, IsNewDesk, IsBack, IsBackTo, IsPartOf, one_if_some};

use crate::{ActorPass, Kept, SharedBoard};
use board_core::Board;
use ride_model::NoMemory;
use std::alloc::Global;
use turn_lock::TurnLock;

/// How many passes there are at most: two feeds, two desks and the scribe.
const PASSES: u32 = 5;

/// One pass for each actor of a board, None for an actor that it does not have. The scribe makes no entry.
#[derive(Drop)]
pub struct PassSet<'r> {
    pub feed_1: Option<ActorPass<'r>>,
    pub feed_2: Option<ActorPass<'r>>,
    pub desk_1: Option<ActorPass<'r>>,
    pub desk_2: Option<ActorPass<'r>>,
    pub scribe: ActorPass<'r>,
}

impl<'r> SharedBoard<'r> {
    /// Shares a board as it stands, with a pass for each of its actors, also for one that has ended. Where memory is wanting the
    /// board is dropped.
    pub fn share(
        alloc: Global,
        board: Board<'r>,
    ) -> Result<(SharedBoard<'r>, PassSet<'r>), NoMemory>
        ensures feed_1 { IfOk result (λ r. IsSomeAnd r.1.feed_1 (IsNewPass r.0 board.entry 1)) }
        ensures feed_2 { IfOk result (λ r. MatchOption r.1.feed_2 (board.entry.feeds ≢ 2)
            (λ pass. (board.entry.feeds ≡ 2) × IsNewPass r.0 board.entry 2 pass)) }
        ensures desk_1 { IfOk result (λ r. IsSomeAnd r.1.desk_1 (IsNewPass r.0 board.entry 3)) }
        ensures desk_2 { IfOk result (λ r. MatchOption r.1.desk_2 (board.entry.desks ≢ 2)
            (λ pass. (board.entry.desks ≡ 2) × IsNewPass r.0 board.entry 4 pass)) }
        ensures scribe { IfOk result (λ r. IsBack r.0 0 r.1.scribe) }
        ensures scribe_point { IfOk result (λ r. IsPoint (knowledge r.1.scribe)) }
        ensures scribe_seen { IfOk result (λ r.
            (knowledge r.1.scribe).seen ≡ board.entry.history) }
        ensures root { IfOk result (λ r.
            (knowledge r.1.scribe).root ≡ as_began board.entry ∷ []) }
        ensures out { IfOk result (λ r. (knowledge r.1.scribe).out
            ≡ one_if_some r.1.feed_1 + one_if_some r.1.feed_2
            + one_if_some r.1.desk_1 + one_if_some r.1.desk_2) }
    {
        let two_feeds = board.feeds() == 2;
        let two_desks = board.desks() == 2;
        // This call also tells what is so of every board.
        let count = board.entries().len() as u64;
        let (lock, mut scribe) = TurnLock::new(alloc, Kept { board }, count, PASSES)?;
        let desk_2 = lock.split(&mut scribe);
        let desk_1 = lock.split(&mut scribe);
        let feed_2 = lock.split(&mut scribe);
        let feed_1 = lock.split(&mut scribe);
        let feed_2 = kept_if(&lock, &mut scribe, feed_2, two_feeds);
        let desk_2 = kept_if(&lock, &mut scribe, desk_2, two_desks);
        let passes = PassSet {
            feed_1: Some(feed_1),
            feed_2,
            desk_1: Some(desk_1),
            desk_2,
            scribe,
        };
        Ok((SharedBoard { lock }, passes))
    }

    /// Shares a board on which nothing happened yet. Where memory is wanting the board is dropped.
    pub fn start(
        alloc: Global,
        board: Board<'r>,
    ) -> Result<(SharedBoard<'r>, PassSet<'r>), NoMemory>
        requires { board.history ≡ [] }
        ensures feed_1 { IfOk result (λ r.
            IsSomeAnd r.1.feed_1 (IsNewFeed r.0 (as_began board.entry) 1)) }
        ensures feed_2 { IfOk result (λ r. MatchOption r.1.feed_2 (board.entry.feeds ≢ 2)
            (λ pass. (board.entry.feeds ≡ 2) × IsNewFeed r.0 (as_began board.entry) 2 pass)) }
        ensures desk_1 { IfOk result (λ r.
            IsSomeAnd r.1.desk_1 (IsNewDesk r.0 (as_began board.entry) 3)) }
        ensures desk_2 { IfOk result (λ r. MatchOption r.1.desk_2 (board.entry.desks ≢ 2)
            (λ pass. (board.entry.desks ≡ 2) × IsNewDesk r.0 (as_began board.entry) 4 pass)) }
        ensures scribe { IfOk result (λ r. IsBack r.0 0 r.1.scribe) }
        ensures scribe_point { IfOk result (λ r. IsPoint (knowledge r.1.scribe)) }
        ensures scribe_seen { IfOk result (λ r. (knowledge r.1.scribe).seen ≡ []) }
        ensures root { IfOk result (λ r. (knowledge r.1.scribe).root ≡ as_began board.entry ∷ []) }
        ensures out { IfOk result (λ r. (knowledge r.1.scribe).out
            ≡ one_if_some r.1.feed_1 + one_if_some r.1.feed_2
            + one_if_some r.1.desk_1 + one_if_some r.1.desk_2) }
    {
        // This call tells what is so of every board.
        let _entries = board.entries();
        let (shared, passes) = SharedBoard::share(alloc, board)?;
        Ok((shared, passes))
    }

    /// Takes the board back, once all passes are. An actor's pass that does not stand in the set was joined into the
    /// scribe's before.
    ///
    /// This needs no memory, so it is never refused: the `Err`, which would hand back the shared board and the set, does
    /// not come.
    pub fn close(self, passes: PassSet<'r>) -> Result<Board<'r>, (SharedBoard<'r>, PassSet<'r>)>
        requires scribe { IsBack self 0 passes.scribe }
        requires feed_1 { IfSome passes.feed_1 (IsBack self 1) }
        requires feed_2 { IfSome passes.feed_2 (IsBack self 2) }
        requires desk_1 { IfSome passes.desk_1 (IsBack self 3) }
        requires desk_2 { IfSome passes.desk_2 (IsBack self 4) }
        requires out { (knowledge passes.scribe).out
            ≡ one_if_some passes.feed_1 + one_if_some passes.feed_2
            + one_if_some passes.desk_1 + one_if_some passes.desk_2 }
        ensures done { IsOk result }
        ensures root { IfOk result (λ board. (knowledge passes.entry.scribe).root
            ≡ as_began board ∷ []) }
        ensures start { IfOk result (λ board. IsStart board.start) }
        ensures legal { IfOk result (λ board.
            IsLegal board.feeds board.desks board.start board.history) }
        ensures text { IfOk result (λ board.
            HasText board.start.settings.log board.feeds board.desks board.history) }
        ensures seen { IfOk result (λ board.
            IsPrefix (knowledge passes.entry.scribe).seen board.history) }
        ensures feed_1 { IfOk result (λ board.
            IfSome passes.entry.feed_1 (λ pass. IsPartOf board.history (Feed 1) (knowledge pass))) }
        ensures feed_2 { IfOk result (λ board.
            IfSome passes.entry.feed_2 (λ pass. IsPartOf board.history (Feed 2) (knowledge pass))) }
        ensures desk_1 { IfOk result (λ board.
            IfSome passes.entry.desk_1 (λ pass. IsPartOf board.history (Desk 1) (knowledge pass))) }
        ensures desk_2 { IfOk result (λ board.
            IfSome passes.entry.desk_2 (λ pass. IsPartOf board.history (Desk 2) (knowledge pass))) }
    {
        let PassSet {
            feed_1,
            feed_2,
            desk_1,
            desk_2,
            mut scribe,
        } = passes;
        join_some(&self.lock, &mut scribe, feed_1);
        join_some(&self.lock, &mut scribe, feed_2);
        join_some(&self.lock, &mut scribe, desk_1);
        join_some(&self.lock, &mut scribe, desk_2);
        let SharedBoard { lock } = self;
        match lock.close(scribe) {
            Ok(kept) => Ok(opened(kept)),
            Err((lock, scribe)) => Err((SharedBoard { lock }, alone(scribe))),
        }
    }
}

// The board that was kept.
fn opened(kept: Kept<'_>) -> Board<'_>
    ensures same { result ≡ kept.entry.board }
    ensures start { IsStart result.start }
    ensures legal { IsLegal result.feeds result.desks result.start result.history }
    ensures text { HasText result.start.settings.log result.feeds result.desks result.history }
{
    // This call tells what is so of every board.
    let _entries = kept.board.entries();
    kept.board
}

// The set of the scribe's pass alone.
fn alone(scribe: ActorPass<'_>) -> PassSet<'_> {
    PassSet {
        feed_1: None,
        feed_2: None,
        desk_1: None,
        desk_2: None,
        scribe,
    }
}

// A pass that is kept, or joined where there is no actor for it.
fn kept_if<'r>(
    lock: &TurnLock<Kept<'r>>,
    scribe: &mut ActorPass<'r>,
    pass: ActorPass<'r>,
    has_actor: bool,
) -> Option<ActorPass<'r>>
    requires scribe { IsBackTo lock.now 0 scribe.old }
    requires pass { MayEnter lock.now pass }
    requires numbered { (knowledge pass).number ≢ 0 }
    ensures scribe { IsBackTo lock.now 0 scribe.new }
    ensures kept { MatchOption result
        ((has_actor ≡ false) × (knowledge scribe.new
        ≡ after_join (knowledge scribe.old) (knowledge pass.entry)))
        (λ p. (has_actor ≡ true) × (knowledge scribe.new ≡ knowledge scribe.old)
        × (p ≡ pass.entry)) }
{
    if has_actor {
        return Some(pass);
    }
    lock.join(scribe, pass);
    None
}

// Takes a pass back, where there is one.
fn join_some<'r>(lock: &TurnLock<Kept<'r>>, scribe: &mut ActorPass<'r>, pass: Option<ActorPass<'r>>)
    requires scribe { IsBackTo lock.now 0 scribe.old }
    requires pass { IfSome pass (λ p. MayEnter lock.now p × ((knowledge p).number ≢ 0)) }
    ensures scribe { IsBackTo lock.now 0 scribe.new }
    ensures joined { MatchOption pass.entry (knowledge scribe.new ≡ knowledge scribe.old)
        (λ p. knowledge scribe.new ≡ after_join (knowledge scribe.old) (knowledge p)) }
    ensures seen { IsPrefix (knowledge scribe.old).seen (knowledge scribe.new).seen }
    ensures pass_seen { IfSome pass.entry
        (λ p. IsPrefix (knowledge p).seen (knowledge scribe.new).seen) }
    ensures out { (knowledge scribe.new).out + one_if_some pass.entry ≡ (knowledge scribe.old).out }
    ensures root { (knowledge scribe.new).root ≡ (knowledge scribe.old).root }
{
    if let Some(pass) = pass {
        lock.join(scribe, pass);
    }
}
