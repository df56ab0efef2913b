//! Seatings and the prices that certify them.
#![tactic(auto, unfolding(ride_model::specs::Road::travel, ride_model::specs::Road::travel_within, ride_model::specs::Offers::offer_of))]

ghost use Rattle.std.specs.Prelude.{◌≡◌, [], ◌∷◌};
ghost use Rattle.ride_model.specs.Seating.{IsSeating, IsLeastSeating, Certifies, seating_cost};
ghost use Rattle.plan_trials.specs.worked_rows.Roads.{four_nodes};
ghost use Rattle.plan_trials.specs.worked_rows.Runs.{seat};
ghost use Rattle.plan_trials.specs.worked_rows.Greedy.{two_requests, greedy_seats, least_seats};
ghost use Rattle.plan_trials.specs.worked_rows.PlainPath.{batch};

/// Request by request the cheapest vehicle is not the cheapest seating.
pub fn greedy_is_dearer()
    ensures greedy { IsSeating four_nodes two_requests greedy_seats }
    ensures greedy_cost { seating_cost four_nodes two_requests greedy_seats ≡ 360 }
    ensures cost { seating_cost four_nodes two_requests least_seats ≡ 240 }
    ensures certified { Certifies four_nodes two_requests least_seats
        ((5, 180) ∷ (6, 120) ∷ []) ((1, 60) ∷ []) }
    ensures least { IsLeastSeating four_nodes two_requests least_seats }
{}

/// A price of 180 certifies the plain path's seating, and one of 181 does not.
pub fn price_of_the_plain_path()
    ensures certified { Certifies four_nodes batch (seat 7 1 0 0 ∷ []) ((7, 180) ∷ []) [] }
    ensures too_high { Certifies four_nodes batch (seat 7 1 0 0 ∷ []) ((7, 181) ∷ []) [] → ⊥ }
    ensures least { IsLeastSeating four_nodes batch (seat 7 1 0 0 ∷ []) }
{}
