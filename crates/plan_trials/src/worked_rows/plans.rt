//! Times, loads, promises and offers of small plans.
#![tactic(auto, unfolding(ride_model::specs::Road::travel, ride_model::specs::Road::travel_within, ride_model::specs::Offers::offer_of))]

ghost use Rattle.std.specs.Prelude.{◌≡◌, [], ◌∷◌, Some, None, IsTrue, IsFalse, map};
ghost use Rattle.ride_model.specs.declared.offer.Offer.{Offer};
ghost use Rattle.ride_model.specs.declared.vehicle.Kind.TheVariants.{Pickup, Dropoff};
ghost use Rattle.ride_model.specs.Road.{travel};
ghost use Rattle.ride_model.specs.Vehicle.{visits_due};
ghost use Rattle.ride_model.specs.Times.{times_of, drive_of};
ghost use Rattle.ride_model.specs.Loads.{loads_of};
ghost use Rattle.ride_model.specs.Keeps.{keeps, broken_of};
ghost use Rattle.ride_model.specs.Insertion.{inserted, without_ride};
ghost use Rattle.ride_model.specs.Offers.{price, offers, offer_of};
ghost use Rattle.plan_trials.specs.worked_rows.Roads.{four_nodes, one_way, default_settings};
ghost use Rattle.plan_trials.specs.worked_rows.Vehicles.{ride_7, ride_9, ride_of_one, ride_of_a_chair, pooled, with_a_chair, idle_vehicle, with_rides, with_ride_7, pickup, dropoff};

/// Along the road a walk takes a minute an arc.
pub fn travel_times()
    ensures along { travel four_nodes 1 4 ≡ Some 180 }
    ensures back { travel four_nodes 4 2 ≡ Some 120 }
    ensures staying { travel four_nodes 3 3 ≡ Some 0 }
    ensures nowhere { travel four_nodes 1 5 ≡ None }
{}

/// An arc goes one way.
pub fn one_way_road()
    ensures forth { travel one_way 2 3 ≡ Some 60 }
    ensures back { travel one_way 3 2 ≡ None }
{}

/// The pooled plan reaches nodes 2, 3, 4 and 4 again after one, two, three and three minutes.
pub fn pooled_plan_times()
    ensures times { times_of pooled 0 0 ≡ 60 ∷ 120 ∷ 180 ∷ 180 ∷ [] }
    ensures drive { drive_of pooled 0 ≡ 180 }
    ensures standing { times_of pooled 5 30 ≡ 65 ∷ 155 ∷ 245 ∷ 275 ∷ [] }
    ensures drive_and_stand { drive_of pooled 30 ≡ 270 }
{}

/// One rider, then two, then one and none are aboard.
pub fn pooled_plan_loads()
    ensures { loads_of pooled ≡ record { seats = 1; chairs = 0 } ∷ record { seats = 2; chairs = 0 }
        ∷ record { seats = 1; chairs = 0 } ∷ record { seats = 0; chairs = 0 } ∷ [] }
{}

/// Ride 9 costs nothing more where ride 7 passes, and the plan with it is the pooled one.
pub fn pooled_at_no_added_cost()
    ensures price { price four_nodes default_settings (with_ride_7 2) ride_9 0 ≡ Some 0 }
    ensures plan { inserted four_nodes (record (with_ride_7 2) { version = 2 }) ride_9 1 1
        ≡ Some pooled }
{}

/// A ride of two minutes keeps a limit of 120 seconds, and not one of 119.
pub fn ride_limit_is_exact()
    ensures kept { IsTrue (keeps (with_rides (idle_vehicle 1 2 1) 0 (ride_of_one 7 2 4 600 120 ∷ [])
        (pickup 7 2 60 ∷ dropoff 7 4 120 ∷ [])) 0 0) }
    ensures not_kept { IsFalse (keeps
        (with_rides (idle_vehicle 1 2 1) 0 (ride_of_one 7 2 4 600 119 ∷ [])
        (pickup 7 2 60 ∷ dropoff 7 4 120 ∷ [])) 0 0) }
    ensures away { price four_nodes default_settings (idle_vehicle 1 2 1)
        (ride_of_one 7 2 4 600 119) 0 ≡ None }
{}

/// A pickup after a minute keeps a latest time of 60, and not one of 59.
pub fn latest_pickup_is_exact()
    ensures kept { price four_nodes default_settings (idle_vehicle 1 2 1)
        (ride_of_one 7 2 4 60 300) 0 ≡ Some 180 }
    ensures not_kept { price four_nodes default_settings (idle_vehicle 1 2 1)
        (ride_of_one 7 2 4 59 300) 0 ≡ None }
{}

/// Two riders do not share one seat: the place pair that would add nothing is no offer.
pub fn one_seat_is_not_shared()
    ensures no_offer { offer_of four_nodes default_settings (with_ride_7 1)
        (ride_of_one 10 1 3 600 300) 0 0 1 ≡ None }
    ensures price { price four_nodes default_settings (with_ride_7 1) (ride_of_one 10 1 3 600 300) 0
        ≡ Some 120 }
    ensures costs { map (λ (offer : Offer). offer.cost)
        (offers four_nodes default_settings (with_ride_7 1) (ride_of_one 10 1 3 600 300) 0)
        ≡ 120 ∷ 300 ∷ [] }
{}

/// Two riders do not share one chair, though seats are free; a rider on a seat goes along.
pub fn one_chair_is_not_shared()
    ensures chairs { price four_nodes default_settings with_a_chair (ride_of_a_chair 9 3 4) 0
        ≡ Some 120 }
    ensures seats { price four_nodes default_settings with_a_chair (ride_of_one 10 3 4 600 300) 0
        ≡ Some 0 }
{}

/// The vehicle starts ten seconds after the batch's time, though it was ready after five, and the rider waits from the batch's
/// time on.
pub fn lead_and_waiting()
    ensures { price four_nodes (record default_settings { wait = 2; lead = 10 })
        (record (idle_vehicle 1 2 1) { ready = 5 })
        ride_7 0 ≡ Some 320 }
{}

/// A rider who waits needs both stops, one aboard the drop-off alone.
pub fn stops_that_a_ride_needs()
    ensures waiting { visits_due ride_7 None ≡ (Pickup, 2) ∷ (Dropoff, 4) ∷ [] }
    ensures aboard { visits_due ride_7 (Some 60) ≡ (Dropoff, 4) ∷ [] }
{}

/// Broken rides are named in order of confirmation, and a rider aboard for the length of the ride alone.
pub fn broken_rides_in_order()
    ensures order { broken_of (with_rides (idle_vehicle 1 2 1) 2
        (ride_of_one 7 2 4 59 300 ∷ ride_of_one 8 2 4 59 300 ∷ [])
        (pickup 8 2 60 ∷ pickup 7 2 0 ∷ dropoff 8 4 120 ∷ dropoff 7 4 0 ∷ [])) 0 ≡ 7 ∷ 8 ∷ [] }
    ensures aboard { broken_of (with_rides (record (idle_vehicle 1 2 2) { ready = 60 }) 2
        (record (ride_of_one 7 2 4 59 119) { picked = Some 60 } ∷ []) (dropoff 7 4 120 ∷ [])) 0
        ≡ 7 ∷ [] }
    ensures not_by_the_pickup { broken_of (with_rides (record (idle_vehicle 1 2 2) { ready = 60 }) 2
        (record (ride_of_one 7 2 4 59 120) { picked = Some 60 } ∷ []) (dropoff 7 4 120 ∷ [])) 0
        ≡ [] }
{}

/// Of four places for ride 9 three would add two minutes, but each breaks a limit of ride 7.
pub fn limits_of_riders_in_the_plan_hold()
    ensures { price four_nodes default_settings
        (with_rides (idle_vehicle 1 2 1) 1 (ride_of_one 7 2 4 60 120 ∷ [])
        (pickup 7 2 60 ∷ dropoff 7 4 120 ∷ [])) (ride_of_one 9 2 1 600 200) 0 ≡ Some 180 }
{}

/// A vehicle that drives and reached its node before the batch's time is not open.
pub fn passed_vehicle_is_not_open()
    ensures { price four_nodes default_settings (with_ride_7 2) ride_9 30 ≡ None }
{}

/// Taking ride 9 out gives the plan of ride 7 back.
pub fn plan_without_a_ride()
    ensures { without_ride four_nodes (record pooled { version = 1 }) 9 ≡ with_ride_7 2 }
{}
