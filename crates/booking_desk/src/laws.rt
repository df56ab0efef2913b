//! Laws of desks: what is true of every list of steps from a new desk.
ghost use Rattle.std.specs.Prelude.{◌≡◌, ◌≤◌, ℕ, List, Contains, IfSome, map, false, nat_eq, true};
ghost use Rattle.std.specs.List.{IsDistinct};
ghost use Rattle.booking_desk.specs.Desk.{Booking, id_of};
ghost use Rattle.booking_desk.specs.inner.Desk.{is_booked, is_held};
ghost use Rattle.booking_desk.specs.inner.Desk.{after_unbook, due_of, new_desk};
ghost use Rattle.booking_desk.specs.Released.{book, desk_after};
ghost use Rattle.booking_desk.specs.inner.Released.{clock_of};
ghost use Rattle.booking_desk.specs.inner.Released.{released_of};
ghost use Rattle.booking_desk.specs.inner.Steps.{DeskStep, TakesAllDue, after_steps, calls_of, taken_by};

/// Each booking is taken at most once, never before its release and never after it was unbooked.
pub fn bookings_are_taken_once()
    ensures once { (most : ℕ) (steps : List DeskStep)
        → IsDistinct nat_eq (map id_of (taken_by (new_desk most) steps)) }

    // What may be taken after some steps was booked by one of them, for a release that has come.
    ensures was_booked { (most : ℕ) (steps : List DeskStep)
        → IfSome (due_of (after_steps (new_desk most) steps))
        (λ (booking : Booking). Contains (calls_of steps) (book booking.release booking.request)) }
    ensures not_before_release { (most : ℕ) (steps : List DeskStep)
        → IfSome (due_of (after_steps (new_desk most) steps))
        (λ (booking : Booking). booking.release ≤ clock_of (calls_of steps)) }

    // Once an id was booked and is unbooked, no steps take it.
    ensures not_after_unbook { (most : ℕ) (before after : List DeskStep) (id : ℕ)
        → let desk = after_steps (new_desk most) before
        in is_booked id desk.booked ≡ true
        → is_held id (taken_by (after_unbook desk id) after) ≡ false }
{}

/// Where all that are due are taken after each call, the bookings that are taken are those that are released and were not
/// released as they were booked, in their order.
pub fn bookings_are_released_in_order()
    ensures released { (most : ℕ) (steps : List DeskStep) → TakesAllDue (new_desk most) steps
        → taken_by (new_desk most) steps ≡ released_of most (calls_of steps) }

    // And the desk is then as its calls say.
    ensures desk { (most : ℕ) (steps : List DeskStep) → TakesAllDue (new_desk most) steps
        → after_steps (new_desk most) steps ≡ desk_after most (calls_of steps) }
{}
