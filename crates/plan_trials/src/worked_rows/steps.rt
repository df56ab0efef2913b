//! The replies of small feeds.
#![tactic(auto, unfolding(ride_model::specs::Road::travel, ride_model::specs::Road::travel_within, ride_model::specs::Offers::offer_of, ride_model::specs::Step::request_step, ride_model::specs::Step::clock_step, ride_model::specs::Step::ask_step))]

ghost use Rattle.std.specs.Prelude.{◌≡◌, [], ◌∷◌, ◌++◌};
ghost use Rattle.ride_model.specs.declared.command.Command.TheVariants.{Request, Cancel, At, Done, Off, Clock, Ask};
ghost use Rattle.ride_model.specs.declared.reply.Reply.TheVariants.{Waiting, Freed, OnMap, Late, Picked, Dropped, Now, Asked, Refused};
ghost use Rattle.plan_trials.specs.worked_rows.Roads.{four_nodes, default_settings};
ghost use Rattle.plan_trials.specs.worked_rows.Runs.{Deed, feed, seated, replies, request, seat};
ghost use Rattle.plan_trials.specs.worked_rows.Vehicles.{idle_vehicle};

/// A confirmed ride is freed, a closed one is refused, and so is one that is aboard or unknown.
pub fn cancellations()
    ensures { replies default_settings (idle_vehicle 1 2 1 ∷ [])
        (request 7 2 4 600 300 ∷ feed Ask ∷ seated (seat 7 1 0 0 ∷ []) ∷ request 9 3 4 600 300
        ∷ feed Ask
        ∷ seated (seat 9 1 1 1 ∷ []) ∷ feed (Cancel 9) ∷ feed (Cancel 9) ∷ feed (At 1 2 60)
        ∷ feed (Done 1)
        ∷ feed (Cancel 7) ∷ feed (Cancel 5) ∷ feed (At 1 4 180) ∷ feed (Done 1) ∷ feed (Done 1)
        ∷ feed Ask ∷ [])
        ≡ Waiting ∷ Asked 1 ∷ Waiting ∷ Asked 2 ∷ Freed 1 ∷ Refused 9 ∷ OnMap ∷ Picked 7 ∷ Refused 8
        ∷ Refused 7
        ∷ OnMap ∷ Dropped 7 ∷ Refused 14 ∷ Asked 3 ∷ [] }
{}

/// A report behind the plan is late by the difference, and names the rides that it breaks; time does not go back.
pub fn late_reports()
    ensures late { replies default_settings (idle_vehicle 1 2 1 ∷ [])
        (request 7 2 4 600 300 ∷ feed Ask ∷ seated (seat 7 1 0 0 ∷ []) ∷ feed (At 1 2 100)
        ∷ feed (At 1 2 99) ∷ [])
        ≡ Waiting ∷ Asked 1 ∷ Late 40 [] ∷ Refused 12 ∷ [] }
    ensures broken { replies default_settings (idle_vehicle 1 2 1 ∷ [])
        (request 7 2 4 90 300 ∷ feed Ask ∷ seated (seat 7 1 0 0 ∷ []) ∷ feed (At 1 2 100) ∷ [])
        ≡ Waiting ∷ Asked 1 ∷ Late 40 (7 ∷ []) ∷ [] }
{}

/// A stop is served where the vehicle is at its node.
pub fn serving()
    ensures { replies default_settings (idle_vehicle 1 2 1 ∷ [])
        (feed (Done 1) ∷ request 7 2 4 600 300 ∷ feed Ask ∷ seated (seat 7 1 0 0 ∷ [])
        ∷ feed (Done 1)
        ∷ feed (At 1 2 60) ∷ feed (Done 1) ∷ feed (At 1 4 180) ∷ feed (Done 1) ∷ feed (Done 1)
        ∷ feed (Done 2) ∷ [])
        ≡ Refused 14 ∷ Waiting ∷ Asked 1 ∷ Refused 15 ∷ OnMap ∷ Picked 7 ∷ OnMap ∷ Dropped 7
        ∷ Refused 14
        ∷ Refused 10 ∷ [] }
{}

/// Each refusal has its number, and the first that applies is given.
pub fn refusals_in_order()
    ensures order { replies default_settings (idle_vehicle 1 2 1 ∷ [])
        (request 7 2 4 600 300 ∷ request 7 2 4 600 300 ∷ request 8 5 4 600 300
        ∷ request 8 2 2 600 300
        ∷ feed (Request 8 2 4 9 600 300 0) ∷ request 8 2 4 600 0 ∷ feed (At 2 1 5) ∷ feed (At 1 9 5)
        ∷ feed (At 1 1 1000000001) ∷ feed (Clock 20) ∷ feed (Clock 5) ∷ feed (Clock 1000000001)
        ∷ [])
        ≡ Waiting ∷ Refused 1 ∷ Refused 2 ∷ Refused 3 ∷ Refused 4 ∷ Refused 5 ∷ Refused 10
        ∷ Refused 11 ∷ Refused 5
        ∷ Now 20 ∷ Now 20 ∷ Refused 5 ∷ [] }
    ensures no_load { replies default_settings (idle_vehicle 1 2 1 ∷ [])
        (feed (Request 11 2 4 0 600 300 0) ∷ []) ≡ Refused 4 ∷ [] }
{}

/// With half a minute at each stop the drop-off is planned for 210 seconds.
pub fn dwell_delays_the_next_stop()
    ensures on_time { replies (record
        default_settings { batch = 1; dwell = 30 }) (idle_vehicle 1 2 1 ∷ [])
        (request 7 2 4 600 300 ∷ feed Ask ∷ seated (seat 7 1 0 0 ∷ []) ∷ feed (At 1 2 60)
        ∷ feed (Done 1)
        ∷ feed (At 1 4 210) ∷ feed (Done 1) ∷ [])
        ≡ Waiting ∷ Asked 1 ∷ OnMap ∷ Picked 7 ∷ OnMap ∷ Dropped 7 ∷ [] }
    ensures late { replies (record default_settings { batch = 1; dwell = 30 }) (idle_vehicle 1 2 1
        ∷ [])
        (request 7 2 4 600 300 ∷ feed Ask ∷ seated (seat 7 1 0 0 ∷ []) ∷ feed (At 1 2 60)
        ∷ feed (Done 1)
        ∷ feed (At 1 4 211) ∷ [])
        ≡ Waiting ∷ Asked 1 ∷ OnMap ∷ Picked 7 ∷ Late 1 [] ∷ [] }
{}

/// A stop that would end after the last moment of the day is not served.
pub fn day_over()
    ensures { replies (record default_settings {
      batch = 1;
      dwell = 3600;
      penalty = 10000;
    }) (idle_vehicle 1 2 2 ∷ [])
        (request 7 2 4 100 100000 ∷ feed Ask ∷ seated (seat 7 1 0 0 ∷ [])
        ∷ request 8 2 4 9000 100000 ∷ feed Ask
        ∷ seated (seat 8 1 1 1 ∷ []) ∷ feed (At 1 2 1000000000) ∷ feed (Done 1) ∷ feed (Done 1)
        ∷ [])
        ≡ Waiting ∷ Asked 1 ∷ Waiting ∷ Asked 2 ∷ Late 1000000000 (7 ∷ 8 ∷ []) ∷ Picked 7
        ∷ Refused 17 ∷ [] }
{}
