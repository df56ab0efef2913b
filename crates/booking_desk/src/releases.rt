//! Bookings that become requests of a shared board.
ghost use Rattle.std.specs.Prelude.{◌≡◌, ◌≤◌, ◌++◌, List, length, All, MatchResult};
ghost use Rattle.ride_model.specs.Text.{IsSpelledCommand};
ghost use Rattle.ride_model.specs.inner.Limits.{most_earlier_commands};
ghost use Rattle.turn_lock.specs.Passes.{knowledge};
ghost use Rattle.fleet_board.specs.inner.Passes.{commands_in, root_of};
ghost use Rattle.fleet_board.specs.Roles.{MayFeed};
ghost use Rattle.booking_desk.specs.Desk.{Booking};
ghost use Rattle.booking_desk.specs.inner.Releases.{HasSubmitted, all_due};

use crate::{BookingDesk, NoMemory};
use fleet_board::{ActorPass, SharedBoard};
use std::sync::Wait;

impl BookingDesk {
    /// Submits the requests that are due, in order of release and id, and answers how many they are. Where memory is wanting,
    /// those that were submitted are no longer held, and the rest is. The pass is a feed's.
    pub fn release_due<'r, R: Wait>(
        &mut self,
        rt: &R,
        board: &SharedBoard<'r>,
        pass: &mut ActorPass<'r>,
    ) -> Result<u32, NoMemory>
        requires feed { MayFeed board.now pass.old }
        requires few { length (commands_in (knowledge pass.old).own) ≤ most_earlier_commands }
        requires spelled { All (λ (booking : Booking).
            IsSpelledCommand (root_of (knowledge pass.old)).start.settings.log
            booking.request) self.old.held }
        ensures feed { MayFeed board.now pass.new }
        ensures released { (released : List Booking)
            × HasSubmitted self.old self.new (knowledge pass.old) (knowledge pass.new) released
            × MatchResult result
            (λ count. (released ≡ all_due self.old) × (count ≡ length released))
            (λ _. (left : List Booking) × (all_due self.old ≡ released ++ left)) }
    {
        // This call tells that the desk holds at most 100,000 bookings.
        let _held = self.held();
        let mut count = 0;
        while let Some(request) = self.due() {
            board.submit(rt, pass, &request)?;
            self.take_due();
            count += 1;
        }
        Ok(count)
    }
}
