//! Stops that take their time, chairs, cancellations, reports of the vehicle, and refusals.
use super::cases::expect_replays;

#[test]
fn stops_take_their_time_chairs_are_not_shared_and_reports_have_their_answers(rt: HostRuntime) {
    expect_replays(&rt, DWELLS);
    expect_replays(&rt, DWELLS_OF_RIDES);
    expect_replays(&rt, DWELLS_OF_PLANS);
    expect_replays(&rt, CHAIRS);
    expect_replays(&rt, REPORTS);
    expect_replays(&rt, LATE_REPORTS);
}

const DWELLS: &str = "
[case] each stop takes its time
[fleet]
set batch 1
set dwell 30
vehicle 1 2 1 0
[feed]
request 7 2 4 1 600 300
batch
at 1 2 60
done 1
at 1 4 210
done 1
[written]
log 1 feeds 1 desks 1
f1 request 7 2 4 1 600 300 = waiting
f1 batch = asked 1
d1 open 1 at 0 requests 7 plans 1@0
d1 commit 1 cost 210 seats 7:1:0:0 prices* outcomes 7:confirmed
f1 at 1 2 60 = onmap
f1 done 1 = picked 7
f1 at 1 4 210 = onmap
f1 done 1 = dropped 7
f1 end
d1 end
[audit]
yes entries 10 confirmed 1 away 0 picked 1 dropped 1 finished yes

[case] a report is late behind the time of the stop
[fleet]
set batch 1
set dwell 30
vehicle 1 2 1 0
[feed]
request 7 2 4 1 600 300
batch
at 1 2 60
done 1
at 1 4 211
[written]
log 1 feeds 1 desks 1
f1 request 7 2 4 1 600 300 = waiting
f1 batch = asked 1
d1 open 1 at 0 requests 7 plans 1@0
d1 commit 1 cost 210 seats 7:1:0:0 prices* outcomes 7:confirmed
f1 at 1 2 60 = onmap
f1 done 1 = picked 7
f1 at 1 4 211 = late 1
f1 end
d1 end
[audit]
yes entries 9 confirmed 1 away 0 picked 1 dropped 0 finished yes
";

const DWELLS_OF_RIDES: &str = "
[case] the time of the pickup counts for the ride limit, which is passed
[fleet]
set batch 1
set dwell 30
vehicle 1 2 1 0
[feed]
request 7 2 4 1 600 149
batch
[written]
log 1 feeds 1 desks 1
f1 request 7 2 4 1 600 149 = waiting
f1 batch = asked 1
d1 open 1 at 0 requests 7 plans 1@0
d1 commit 1 cost 3600 seats prices 7:3600 pays outcomes 7:away
f1 end
d1 end
[audit]
yes entries 6 confirmed 0 away 1 picked 0 dropped 0 finished yes

[case] the time of the pickup counts for the ride limit, which is kept
[fleet]
set batch 1
set dwell 30
vehicle 1 2 1 0
[feed]
request 7 2 4 1 600 150
batch
[written]
log 1 feeds 1 desks 1
f1 request 7 2 4 1 600 150 = waiting
f1 batch = asked 1
d1 open 1 at 0 requests 7 plans 1@0
d1 commit 1 cost 210 seats 7:1:0:0 prices* outcomes 7:confirmed
f1 end
d1 end
[audit]
yes entries 6 confirmed 1 away 0 picked 0 dropped 0 finished yes
";

const DWELLS_OF_PLANS: &str = "
[case] a pooled ride costs its two stops
[fleet]
set batch 1
set dwell 30
vehicle 1 2 1 0
[feed]
request 7 2 4 1 600 300
batch
request 9 3 4 1 600 300
batch
[written]
log 1 feeds 1 desks 1
f1 request 7 2 4 1 600 300 = waiting
f1 batch = asked 1
d1 open 1 at 0 requests 7 plans 1@0
d1 commit 1 cost 210 seats 7:1:0:0 prices* outcomes 7:confirmed
f1 request 9 3 4 1 600 300 = waiting
f1 batch = asked 2
d1 open 2 at 0 requests 9 plans 1@1
d1 commit 2 cost 60 seats 9:1:1:* prices* outcomes 9:confirmed
f1 end
d1 end
[audit]
yes entries 10 confirmed 2 away 0 picked 0 dropped 0 finished yes

[case] a stop past the end of the day is not served
[fleet]
set batch 1
set dwell 3600
set penalty 10000
vehicle 1 2 2 0
[feed]
request 7 2 4 1 100 100000
batch
request 8 2 4 1 9000 100000
batch
at 1 2 1000000000
done 1
done 1
[written]
log 1 feeds 1 desks 1
f1 request 7 2 4 1 100 100000 = waiting
f1 batch = asked 1
d1 open 1 at 0 requests 7 plans 1@0
d1 commit 1 cost 3720 seats 7:1:0:0 prices* outcomes 7:confirmed
f1 request 8 2 4 1 9000 100000 = waiting
f1 batch = asked 2
d1 open 2 at 0 requests 8 plans 1@1
d1 commit 2 cost 7200 seats 8:1:1:* prices* outcomes 8:confirmed
f1 at 1 2 1000000000 = late 1000000000 broken 7 8
f1 done 1 = picked 7
f1 done 1 = refused 17
f1 end
d1 end
[audit]
yes entries 13 confirmed 2 away 0 picked 1 dropped 0 finished yes
";

const CHAIRS: &str = "
[case] one chair is not shared
[fleet]
set batch 1
set log 2
vehicle 1 2 1 0 1
[feed]
request 7 2 4 0 600 300 1
batch
request 9 3 4 0 600 300 1
batch
request 10 3 4 1 600 300
batch
[written]
log 2 feeds 1 desks 1
f1 request 7 2 4 0 600 300 1 = waiting
f1 batch = asked 1
d1 open 1 at 0 requests 7 plans 1@0
d1 commit 1 cost 180 seats 7:1:0:0 prices* outcomes 7:confirmed
f1 request 9 3 4 0 600 300 1 = waiting
f1 batch = asked 2
d1 open 2 at 0 requests 9 plans 1@1
d1 commit 2 cost 120 seats 9:1:2:2 prices* outcomes 9:confirmed
f1 request 10 3 4 1 600 300 0 = waiting
f1 batch = asked 3
d1 open 3 at 0 requests 10 plans 1@2
d1 commit 3 cost 0 seats 10:1:* prices* outcomes 10:confirmed
f1 end
d1 end
[audit]
yes entries 14 confirmed 3 away 0 picked 0 dropped 0 finished yes

[case] chairs in a log without them are bad lines
[fleet]
set batch 1
vehicle 1 2 1 0 1
[feed]
request 7 2 4 0 600 300 1
batch
request 9 3 4 0 600 300 1
batch
request 10 3 4 1 600 300
batch
[written]
log 1 feeds 1 desks 1
f1 bad 1
f1 batch = asked 1
d1 open 1 at 0 requests plans 1@0
d1 commit 1 cost 0 seats prices pays outcomes
f1 bad 3
f1 batch = asked 2
d1 open 2 at 0 requests plans 1@0
d1 commit 2 cost 0 seats prices pays outcomes
f1 request 10 3 4 1 600 300 = waiting
f1 batch = asked 3
d1 open 3 at 0 requests 10 plans 1@0
d1 commit 3 cost 180 seats 10:1:0:0 prices* outcomes 10:confirmed
f1 end
d1 end
[audit]
yes entries 14 confirmed 1 away 0 picked 0 dropped 0 finished yes

[case] a request for no seat and no chair is refused
[fleet]
set batch 1
set log 2
vehicle 1 2 1 0 1
[feed]
request 11 2 4 0 600 300
[written]
log 2 feeds 1 desks 1
f1 request 11 2 4 0 600 300 0 = refused 4
f1 end
d1 end
[audit]
yes entries 3 confirmed 0 away 0 picked 0 dropped 0 finished yes
";

const REPORTS: &str = "
[case] cancellations free a vehicle until the pickup
[feed]
request 7 2 4 1 600 300
batch
request 9 3 4 1 600 300
batch
cancel 9
cancel 9
at 1 2 60
done 1
cancel 7
cancel 5
at 1 4 180
done 1
done 1
batch
[written]
log 1 feeds 1 desks 1
f1 request 7 2 4 1 600 300 = waiting
f1 batch = asked 1
d1 open 1 at 0 requests 7 plans 1@0
d1 commit 1 cost 180 seats 7:1:0:0 prices* outcomes 7:confirmed
f1 request 9 3 4 1 600 300 = waiting
f1 batch = asked 2
d1 open 2 at 0 requests 9 plans 1@1
d1 commit 2 cost 0 seats 9:1:1:* prices* outcomes 9:confirmed
f1 cancel 9 = freed 1
f1 cancel 9 = refused 9
f1 at 1 2 60 = onmap
f1 done 1 = picked 7
f1 cancel 7 = refused 8
f1 cancel 5 = refused 7
f1 at 1 4 180 = onmap
f1 done 1 = dropped 7
f1 done 1 = refused 14
f1 batch = asked 3
d1 open 3 at 0 requests plans 1@7
d1 commit 3 cost 0 seats prices pays outcomes
f1 end
d1 end
[audit]
yes entries 22 confirmed 2 away 0 picked 1 dropped 1 finished yes

[case] a vehicle serves its stops where it stands
[feed]
done 1
request 7 2 4 1 600 300
batch
done 1
at 1 2 60
done 1
at 1 4 180
done 1
done 1
done 2
[written]
log 1 feeds 1 desks 1
f1 done 1 = refused 14
f1 request 7 2 4 1 600 300 = waiting
f1 batch = asked 1
d1 open 1 at 0 requests 7 plans 1@0
d1 commit 1 cost 180 seats 7:1:0:0 prices* outcomes 7:confirmed
f1 done 1 = refused 15
f1 at 1 2 60 = onmap
f1 done 1 = picked 7
f1 at 1 4 180 = onmap
f1 done 1 = dropped 7
f1 done 1 = refused 14
f1 done 2 = refused 10
f1 end
d1 end
[audit]
yes entries 14 confirmed 1 away 0 picked 1 dropped 1 finished yes

[case] commands are refused by the first case that applies
[feed]
request 7 2 4 1 600 300
request 7 2 4 1 600 300
request 8 5 4 1 600 300
request 8 2 2 1 600 300
request 8 2 4 9 600 300
request 8 2 4 1 600 0
at 2 1 5
at 1 9 5
at 1 1 1000000001
clock 20
clock 5
clock 1000000001
[written]
log 1 feeds 1 desks 1
f1 request 7 2 4 1 600 300 = waiting
f1 request 7 2 4 1 600 300 = refused 1
f1 request 8 5 4 1 600 300 = refused 2
f1 request 8 2 2 1 600 300 = refused 3
f1 request 8 2 4 9 600 300 = refused 4
f1 request 8 2 4 1 600 0 = refused 5
f1 at 2 1 5 = refused 10
f1 at 1 9 5 = refused 11
f1 at 1 1 1000000001 = refused 5
f1 clock 20 = now 20
f1 clock 5 = now 20
f1 clock 1000000001 = refused 5
f1 end
d1 end
[audit]
yes entries 14 confirmed 0 away 0 picked 0 dropped 0 finished yes
";

const LATE_REPORTS: &str = "
[case] a late report breaks no ride that has time
[fleet]
set batch 1
vehicle 1 2 1 0
[feed]
request 7 2 4 1 600 300
batch
at 1 2 100
at 1 2 99
[written]
log 1 feeds 1 desks 1
f1 request 7 2 4 1 600 300 = waiting
f1 batch = asked 1
d1 open 1 at 0 requests 7 plans 1@0
d1 commit 1 cost 180 seats 7:1:0:0 prices* outcomes 7:confirmed
f1 at 1 2 100 = late 40
f1 at 1 2 99 = refused 12
f1 end
d1 end
[audit]
yes entries 8 confirmed 1 away 0 picked 0 dropped 0 finished yes

[case] a vehicle that breaks a ride takes no other
[fleet]
set batch 1
vehicle 1 2 1 0
[feed]
request 7 2 4 1 90 300
batch
at 1 2 100
request 9 3 4 1 600 300
batch
[written]
log 1 feeds 1 desks 1
f1 request 7 2 4 1 90 300 = waiting
f1 batch = asked 1
d1 open 1 at 0 requests 7 plans 1@0
d1 commit 1 cost 180 seats 7:1:0:0 prices* outcomes 7:confirmed
f1 at 1 2 100 = late 40 broken 7
f1 request 9 3 4 1 600 300 = waiting
f1 batch = asked 2
d1 open 2 at 0 requests 9 plans 1@2
d1 commit 2 cost 3600 seats prices 9:3600 pays outcomes 9:away
f1 end
d1 end
[audit]
yes entries 11 confirmed 1 away 1 picked 0 dropped 0 finished yes

[case] a broken ride is served at the end of the day
[fleet]
set batch 1
vehicle 1 2 1 0
[feed]
request 7 2 4 1 600 300
batch
at 1 2 1000000000
done 1
at 1 4 1000000000
done 1
[written]
log 1 feeds 1 desks 1
f1 request 7 2 4 1 600 300 = waiting
f1 batch = asked 1
d1 open 1 at 0 requests 7 plans 1@0
d1 commit 1 cost 180 seats 7:1:0:0 prices* outcomes 7:confirmed
f1 at 1 2 1000000000 = late 999999940 broken 7
f1 done 1 = picked 7
f1 at 1 4 1000000000 = onmap
f1 done 1 = dropped 7
f1 end
d1 end
[audit]
yes entries 10 confirmed 1 away 0 picked 1 dropped 1 finished yes
";
