//! Who is seated where, and at what cost.
use super::cases::expect_replays;

#[test]
fn riders_sit_at_the_least_cost_within_their_limits_or_are_away(rt: HostRuntime) {
    expect_replays(&rt, SEATINGS);
    expect_replays(&rt, POOLED);
    expect_replays(&rt, LIMITS_KEPT);
    expect_replays(&rt, LIMITS_PASSED);
    expect_replays(&rt, COSTS);
    expect_replays(&rt, NOT_OPEN);
}

const SEATINGS: &str = "
[case] one vehicle takes one of two requests
[feed]
request 7 2 4 1 600 300
request 8 4 3 1 600 300
batch
[written]
log 1 feeds 1 desks 1
f1 request 7 2 4 1 600 300 = waiting
f1 request 8 4 3 1 600 300 = waiting
f1 batch = asked 1
d1 open 1 at 0 requests 7 8 plans 1@0
d1 commit 1 cost 3780 seats 7:1:0:0 prices* outcomes 7:confirmed 8:away
f1 end
d1 end
[audit]
yes entries 7 confirmed 1 away 1 picked 0 dropped 0 finished yes

[case] each request does not get its cheapest vehicle
[fleet]
vehicle 1 2 1 0
vehicle 2 2 4 0
[feed]
request 5 2 1 1 600 300
request 6 1 2 1 600 300
batch
[written]
log 1 feeds 1 desks 1
f1 request 5 2 1 1 600 300 = waiting
f1 request 6 1 2 1 600 300 = waiting
f1 batch = asked 1
d1 open 1 at 0 requests 5 6 plans 1@0 2@0
d1 commit 1 cost 240 seats 5:2:0:0 6:1:0:0 prices* outcomes 5:confirmed 6:confirmed
f1 end
d1 end
[audit]
yes entries 7 confirmed 2 away 0 picked 0 dropped 0 finished yes
";

const POOLED: &str = "
[case] a ride on the way is pooled at no added cost
[feed]
request 7 2 4 1 600 300
batch
request 9 3 4 1 600 300
batch
[written]
log 1 feeds 1 desks 1
f1 request 7 2 4 1 600 300 = waiting
f1 batch = asked 1
d1 open 1 at 0 requests 7 plans 1@0
d1 commit 1 cost 180 seats 7:1:0:0 prices* outcomes 7:confirmed
f1 request 9 3 4 1 600 300 = waiting
f1 batch = asked 2
d1 open 2 at 0 requests 9 plans 1@1
d1 commit 2 cost 0 seats 9:1:1:* prices* outcomes 9:confirmed
f1 end
d1 end
[audit]
yes entries 10 confirmed 2 away 0 picked 0 dropped 0 finished yes

[case] two do not sit in one seat, and the second is taken behind
[fleet]
vehicle 1 1 1 0
[feed]
request 7 2 4 1 600 300
batch
request 9 3 4 1 600 300
batch
[written]
log 1 feeds 1 desks 1
f1 request 7 2 4 1 600 300 = waiting
f1 batch = asked 1
d1 open 1 at 0 requests 7 plans 1@0
d1 commit 1 cost 180 seats 7:1:0:0 prices* outcomes 7:confirmed
f1 request 9 3 4 1 600 300 = waiting
f1 batch = asked 2
d1 open 2 at 0 requests 9 plans 1@1
d1 commit 2 cost 120 seats 9:1:2:2 prices* outcomes 9:confirmed
f1 end
d1 end
[audit]
yes entries 10 confirmed 2 away 0 picked 0 dropped 0 finished yes

[case] two do not sit in one seat, and the second is taken before
[fleet]
vehicle 1 1 1 0
[feed]
request 7 2 4 1 600 300
batch
request 10 1 3 1 600 300
batch
[written]
log 1 feeds 1 desks 1
f1 request 7 2 4 1 600 300 = waiting
f1 batch = asked 1
d1 open 1 at 0 requests 7 plans 1@0
d1 commit 1 cost 180 seats 7:1:0:0 prices* outcomes 7:confirmed
f1 request 10 1 3 1 600 300 = waiting
f1 batch = asked 2
d1 open 2 at 0 requests 10 plans 1@1
d1 commit 2 cost 120 seats 10:1:0:0 prices* outcomes 10:confirmed
f1 end
d1 end
[audit]
yes entries 10 confirmed 2 away 0 picked 0 dropped 0 finished yes
";

const LIMITS_KEPT: &str = "
[case] a ride limit is kept to the second
[feed]
request 7 2 4 1 600 120
batch
[written]
log 1 feeds 1 desks 1
f1 request 7 2 4 1 600 120 = waiting
f1 batch = asked 1
d1 open 1 at 0 requests 7 plans 1@0
d1 commit 1 cost 180 seats 7:1:0:0 prices* outcomes 7:confirmed
f1 end
d1 end
[audit]
yes entries 6 confirmed 1 away 0 picked 0 dropped 0 finished yes

[case] a latest pickup is kept to the second
[feed]
request 7 2 4 1 60 300
batch
[written]
log 1 feeds 1 desks 1
f1 request 7 2 4 1 60 300 = waiting
f1 batch = asked 1
d1 open 1 at 0 requests 7 plans 1@0
d1 commit 1 cost 180 seats 7:1:0:0 prices* outcomes 7:confirmed
f1 end
d1 end
[audit]
yes entries 6 confirmed 1 away 0 picked 0 dropped 0 finished yes

[case] limits of a confirmed ride hold in later batches
[feed]
request 7 2 4 1 60 120
batch
request 9 2 1 1 600 200
batch
[written]
log 1 feeds 1 desks 1
f1 request 7 2 4 1 60 120 = waiting
f1 batch = asked 1
d1 open 1 at 0 requests 7 plans 1@0
d1 commit 1 cost 180 seats 7:1:0:0 prices* outcomes 7:confirmed
f1 request 9 2 1 1 600 200 = waiting
f1 batch = asked 2
d1 open 2 at 0 requests 9 plans 1@1
d1 commit 2 cost 180 seats 9:1:2:2 prices* outcomes 9:confirmed
f1 end
d1 end
[audit]
yes entries 10 confirmed 2 away 0 picked 0 dropped 0 finished yes
";

const LIMITS_PASSED: &str = "
[case] a ride limit is passed by a second
[feed]
request 7 2 4 1 600 119
batch
[written]
log 1 feeds 1 desks 1
f1 request 7 2 4 1 600 119 = waiting
f1 batch = asked 1
d1 open 1 at 0 requests 7 plans 1@0
d1 commit 1 cost 3600 seats prices 7:3600 pays outcomes 7:away
f1 end
d1 end
[audit]
yes entries 6 confirmed 0 away 1 picked 0 dropped 0 finished yes

[case] a latest pickup is passed by a second
[feed]
request 7 2 4 1 59 300
batch
[written]
log 1 feeds 1 desks 1
f1 request 7 2 4 1 59 300 = waiting
f1 batch = asked 1
d1 open 1 at 0 requests 7 plans 1@0
d1 commit 1 cost 3600 seats prices 7:3600 pays outcomes 7:away
f1 end
d1 end
[audit]
yes entries 6 confirmed 0 away 1 picked 0 dropped 0 finished yes
";

const COSTS: &str = "
[case] turning away costs the penalty
[fleet]
set penalty 179
vehicle 1 2 1 0
[feed]
request 7 2 4 1 600 300
batch
[written]
log 1 feeds 1 desks 1
f1 request 7 2 4 1 600 300 = waiting
f1 batch = asked 1
d1 open 1 at 0 requests 7 plans 1@0
d1 commit 1 cost 179 seats prices 7:179 pays outcomes 7:away
f1 end
d1 end
[audit]
yes entries 6 confirmed 0 away 1 picked 0 dropped 0 finished yes

[case] at the cost of the penalty both are least
[fleet]
set penalty 180
vehicle 1 2 1 0
[feed]
request 7 2 4 1 600 300
batch
[written]
log 1 feeds 1 desks 1
f1 request 7 2 4 1 600 300 = waiting
f1 batch = asked 1
d1 open 1 at 0 requests 7 plans 1@0
d1 commit 1 cost 180 seats* prices 7:180 pays outcomes 7:*
f1 end
d1 end
[audit]
yes entries 6 confirmed * away * picked 0 dropped 0 finished yes

[case] waiting has its weight
[fleet]
set wait 2
vehicle 1 2 1 0
[feed]
request 7 2 4 1 600 300
batch
[written]
log 1 feeds 1 desks 1
f1 request 7 2 4 1 600 300 = waiting
f1 batch = asked 1
d1 open 1 at 0 requests 7 plans 1@0
d1 commit 1 cost 300 seats 7:1:0:0 prices* outcomes 7:confirmed
f1 end
d1 end
[audit]
yes entries 6 confirmed 1 away 0 picked 0 dropped 0 finished yes
";

const NOT_OPEN: &str = "
[case] a vehicle that drives since before the batch is not open
[fleet]
set batch 1
vehicle 1 2 1 0
[feed]
request 7 2 4 1 600 300
batch
clock 30
request 9 3 4 1 600 300
batch
at 1 2 60
request 10 3 4 1 600 300
batch
[written]
log 1 feeds 1 desks 1
f1 request 7 2 4 1 600 300 = waiting
f1 batch = asked 1
d1 open 1 at 0 requests 7 plans 1@0
d1 commit 1 cost 180 seats 7:1:0:0 prices* outcomes 7:confirmed
f1 clock 30 = now 30
f1 request 9 3 4 1 600 300 = waiting
f1 batch = asked 2
d1 open 2 at 30 requests 9 plans 1@1
d1 commit 2 cost 3600 seats prices 9:3600 pays outcomes 9:away
f1 at 1 2 60 = onmap
f1 request 10 3 4 1 600 300 = waiting
f1 batch = asked 3
d1 open 3 at 30 requests 10 plans 1@2
d1 commit 3 cost 0 seats 10:1:1:* prices* outcomes 10:confirmed
f1 end
d1 end
[audit]
yes entries 16 confirmed 2 away 1 picked 0 dropped 0 finished yes

[case] a vehicle off duty takes no ride
[feed]
off 1
request 7 2 4 1 600 300
batch
[written]
log 1 feeds 1 desks 1
f1 off 1 = duty
f1 request 7 2 4 1 600 300 = waiting
f1 batch = asked 1
d1 open 1 at 0 requests 7 plans 1@1
d1 commit 1 cost 3600 seats prices 7:3600 pays outcomes 7:away
f1 end
d1 end
[audit]
yes entries 7 confirmed 0 away 1 picked 0 dropped 0 finished yes
";
