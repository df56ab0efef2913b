//! What a certified pairing says of a round of two companies.
ghost use Rattle.std.specs.Prelude.{◌≡◌, ◌+◌, ◌*◌, length};
ghost use Rattle.dual_check.specs.Grid.{pairing_cost};
ghost use Rattle.board_core.specs.Recorded.{state_of};
ghost use Rattle.fleet_league.specs.inner.league_session.League.{IsRoundBetween, commit_cost, part_between};

use crate::{Brief, Company};
use dual_check::Paired;
use ride_model::Ride;

/// What the commits of a round cost, with a penalty for each ride that the round leaves out, is what the round costs, which is the
/// least over the union of both companies' vehicles.
pub fn league_cost(
    first: &Company<'_>,
    second: &Company<'_>,
    rides: &[Ride],
    penalty: u64,
    round: &Paired,
    first_brief: &Brief,
    second_brief: &Brief,
    left_out: u64,
)
    requires round { IsRoundBetween first.now second.now rides.now penalty round.now }
    requires first_penalty { penalty ≡ first.now.board.start.settings.penalty }
    requires second_penalty { penalty ≡ second.now.board.start.settings.penalty }
    requires first_brief { first_brief.now
        ≡ part_between 1 first.now second.now rides.now round.now }
    requires second_brief { second_brief.now
        ≡ part_between 2 first.now second.now rides.now round.now }
    requires left_out { left_out + length first_brief.now.wins + length second_brief.now.wins
        ≡ length rides.now }
    ensures { (least : IsRoundBetween first.now second.now rides.now penalty round.now)
        → commit_cost (state_of first.now.board) first_brief.now
        + commit_cost (state_of second.now.board) second_brief.now
        + left_out * penalty ≡ pairing_cost least.grid penalty round.now.columns }
{
    // These calls tell that the histories are legal.
    let _first_history = first.board().entries();
    let _second_history = second.board().entries();
}
