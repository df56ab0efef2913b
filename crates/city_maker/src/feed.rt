//! The commands of a city's feed.
ghost use Rattle.std.specs.Prelude.{◌≡◌, ◌+◌, ◌-◌, ◌*◌, ◌/◌, ◌<◌, ◌++◌, map, min, OnOk, IfOk};
ghost use Rattle.std.specs.List.{range_with_len};
ghost use Rattle.city_maker.specs.Draws.{state_after};
ghost use Rattle.city_maker.specs.inner.Plan.{IsPlan};
ghost use Rattle.city_maker.specs.Feed.{commands_of, draws_before, group_of, request_of};

use crate::CityPlan;
use crate::draws::Draws;
use ride_model::limits::LATEST_TIME;
use ride_model::{Command, NoMemory};
use std::alloc::Global;

/// How many requests come between two clocks.
const GROUP: u32 = 8;
/// The seconds from a group's clock to the next one's.
const GROUP_SECONDS: u64 = 30;
/// The seconds from a group's clock to the latest pickup of its requests.
const LATEST_AFTER_CLOCK: u64 = 900;
/// The most seconds of a ride.
const LONGEST: u64 = 3_600;
/// The most seats of a request.
const MOST_SEATS: u32 = 2;

/// The commands of feed 1, drawn after the vehicles.
pub fn commands(alloc: Global, plan: &CityPlan, draws: &mut Draws) -> Result<Vec<Command>, NoMemory>
    requires plan { IsPlan plan.now }
    requires drawn { draws.old.state ≡ state_after plan.now.seed (draws_before plan.now 0) }
    ensures { IfOk result (λ commands. commands.items ≡ commands_of plan.now) }
{
    let mut commands = Vec::new(alloc);
    for group in 0..plan.requests.div_ceil(GROUP) {
        push_group(&mut commands, plan, group, draws)?;
    }
    commands.push(Command::Clock { time: LATEST_TIME })?;
    Ok(commands)
}

// Appends the commands of a group.
fn push_group(
    commands: &mut Vec<Command>,
    plan: &CityPlan,
    group: u32,
    draws: &mut Draws,
) -> Result<(), NoMemory>
    requires plan { IsPlan plan.now }
    requires in_feed { group < (plan.now.requests + 7) / 8 }
    requires drawn { draws.old.state
        ≡ state_after plan.now.seed (draws_before plan.now (8 * group)) }
    ensures commands { OnOk result
        (commands.new.items ≡ commands.old.items ++ group_of plan.now group) }
    ensures drawn { OnOk result (draws.new.state
        ≡ state_after plan.now.seed (draws_before plan.now
        (min plan.now.requests (8 * (group + 1))))) }
{
    let clock = GROUP_SECONDS * u64::from(group);
    commands.push(Command::Clock { time: clock })?;
    push_requests(commands, plan, group, draws)?;
    commands.push(Command::Ask)?;
    Ok(())
}

// Appends the requests of a group.
fn push_requests(
    commands: &mut Vec<Command>,
    plan: &CityPlan,
    group: u32,
    draws: &mut Draws,
) -> Result<(), NoMemory>
    requires plan { IsPlan plan.now }
    requires in_feed { group < (plan.now.requests + 7) / 8 }
    requires drawn { draws.old.state
        ≡ state_after plan.now.seed (draws_before plan.now (8 * group)) }
    ensures commands { OnOk result
        (commands.new.items ≡ commands.old.items ++ map (request_of plan.now)
        (range_with_len (8 * group) (min 8 (plan.now.requests - 8 * group)))) }
    ensures drawn { OnOk result (draws.new.state
        ≡ state_after plan.now.seed (draws_before plan.now
        (min plan.now.requests (8 * (group + 1))))) }
{
    let first = group * GROUP;
    let end = plan.requests.min(first + GROUP);
    for before in first..end {
        commands.push(request(plan, before, draws))?;
    }
    Ok(())
}

// The request that comes after so many others.
fn request(plan: &CityPlan, before: u32, draws: &mut Draws) -> Command
    requires plan { IsPlan plan.now }
    requires in_feed { before < plan.now.requests }
    requires drawn { draws.old.state ≡ state_after plan.now.seed (draws_before plan.now before) }
    ensures request { result ≡ request_of plan.now before }
    ensures drawn { draws.new.state
        ≡ state_after plan.now.seed (draws_before plan.now (before + 1)) }
{
    let nodes = plan.side * plan.side;
    let from = 1 + draws.draw(nodes);
    let drawn = 1 + draws.draw(nodes);
    let to = if drawn == from {
        from % nodes + 1
    } else {
        drawn
    };
    let seats = 1 + draws.draw(MOST_SEATS);
    let clock = GROUP_SECONDS * u64::from(before / GROUP);
    Command::Request {
        id: u64::from(before) + 1,
        from: u64::from(from),
        to: u64::from(to),
        seats: u64::from(seats),
        latest: clock + LATEST_AFTER_CLOCK,
        longest: LONGEST,
        chairs: 0,
    }
}
