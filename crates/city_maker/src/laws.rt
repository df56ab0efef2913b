//! Laws of drills, and draws that are known. Each is the contract of a function that does nothing.
ghost use Rattle.std.specs.Prelude.{◌≡◌, ℕ, [], ◌∷◌, map, filter, Some};
ghost use Rattle.std.specs.List.{range_with_len};
ghost use Rattle.ride_model.specs.declared.command.Command.{Command};
ghost use Rattle.ride_model.specs.declared.vehicle.Vehicle.{Vehicle};
ghost use Rattle.ride_model.specs.Drill.{next_report};
ghost use Rattle.ride_model.specs.State.{State};
ghost use Rattle.ride_model.specs.Step.{step};
ghost use Rattle.city_maker.specs.declared.plan.CityPlan.{CityPlan};
ghost use Rattle.city_maker.specs.Draws.{draw_at};
ghost use Rattle.city_maker.specs.Feed.{commands_of, request_of};
ghost use Rattle.city_maker.specs.inner.Feed.{is_request};
ghost use Rattle.city_maker.specs.inner.Reports.{IsOnTime, DrivesInTheDay};
ghost use Rattle.city_maker.specs.Steps.{steps_of};
ghost use Rattle.city_maker.specs.inner.Steps.{given_in};

/// The first draws of seed 1, below a bound that cuts nothing off.
pub fn seed_1_draws_known_numbers()
    ensures { map (λ before. draw_at 1 before 32768) (range_with_len 0 8)
        ≡ 16838 ∷ 5758 ∷ 10113 ∷ 17515 ∷ 31051 ∷ 5627 ∷ 23010 ∷ 7419 ∷ [] }
{}

/// Each request is given once, in order, whatever the groups.
pub fn requests_are_given_in_order()
    ensures { (plan : CityPlan) → filter is_request (commands_of plan)
        ≡ map (request_of plan) (range_with_len 0 plan.requests) }
{}

/// What the steps of a drill give is what feed 1 gives, in order.
pub fn commands_are_given()
    ensures { (plan : CityPlan) → given_in (steps_of plan) ≡ commands_of plan }
{}

/// Each report of a driver is accepted, and none is late, where the vehicle reaches its first stop within the day.
pub fn reports_are_accepted()
    ensures { (s : State) (place : ℕ) (v : Vehicle) (command : Command) → DrivesInTheDay s place v
        → next_report v s.clock ≡ Some command → IsOnTime (step s command).reply }
{}
