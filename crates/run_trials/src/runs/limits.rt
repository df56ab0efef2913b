//! Files at their limits.
use super::cases::expect_replays;

#[test]
fn files_at_their_limits_have_their_logs(rt: HostRuntime) {
    expect_replays(&rt, BATCHES);
    expect_replays(&rt, REQUESTS);
    expect_replays(&rt, LONG_LINES);
    expect_replays(&rt, FLEETS);
}

/// Batches, and a plan.
const BATCHES: &str = "
[case] a batch takes the first 128
[fleet]
set batch 128
[feed]
<129|request % 2 4 1 600 300
>batch
cancel 129
cancel 1
[written]
log 1 feeds 1 desks 1
<129|f1 request % 2 4 1 600 300 = waiting
>f1 batch = asked 1
d1 open 1 at 0 requests<128| %> plans
d1 commit 1 cost 460800 seats prices<128| %:3600> pays outcomes<128| %:away>
f1 cancel 129 = cancelled
f1 cancel 1 = refused 9
f1 end
d1 end
[audit]
yes entries 136 confirmed 0 away 128 picked 0 dropped 0 finished yes

[case] at most 2000 batches are asked for
[fleet]
[feed]
<2001|batch
>[written]
log 1 feeds 1 desks 1
<2000|f1 batch = asked %
d1 open % at 0 requests plans
d1 commit % cost 0 seats prices pays outcomes
>f1 batch = refused 16
f1 end
d1 end
[audit]
yes entries 6003 confirmed 0 away 0 picked 0 dropped 0 finished yes

[case] a plan of 16 stops takes no ride
[fleet]
vehicle 1 16 1 0
[feed]
<9|request % 2 4 1 600 300
batch
>[written]
log 1 feeds 1 desks 1
f1 request 1 2 4 1 600 300 = waiting
f1 batch = asked 1
d1 open 1 at 0 requests 1 plans 1@0
d1 commit 1 cost 180 seats 1:1:* prices* outcomes 1:confirmed
f1 request 2 2 4 1 600 300 = waiting
f1 batch = asked 2
d1 open 2 at 0 requests 2 plans 1@1
d1 commit 2 cost 0 seats 2:1:* prices* outcomes 2:confirmed
f1 request 3 2 4 1 600 300 = waiting
f1 batch = asked 3
d1 open 3 at 0 requests 3 plans 1@2
d1 commit 3 cost 0 seats 3:1:* prices* outcomes 3:confirmed
f1 request 4 2 4 1 600 300 = waiting
f1 batch = asked 4
d1 open 4 at 0 requests 4 plans 1@3
d1 commit 4 cost 0 seats 4:1:* prices* outcomes 4:confirmed
f1 request 5 2 4 1 600 300 = waiting
f1 batch = asked 5
d1 open 5 at 0 requests 5 plans 1@4
d1 commit 5 cost 0 seats 5:1:* prices* outcomes 5:confirmed
f1 request 6 2 4 1 600 300 = waiting
f1 batch = asked 6
d1 open 6 at 0 requests 6 plans 1@5
d1 commit 6 cost 0 seats 6:1:* prices* outcomes 6:confirmed
f1 request 7 2 4 1 600 300 = waiting
f1 batch = asked 7
d1 open 7 at 0 requests 7 plans 1@6
d1 commit 7 cost 0 seats 7:1:* prices* outcomes 7:confirmed
f1 request 8 2 4 1 600 300 = waiting
f1 batch = asked 8
d1 open 8 at 0 requests 8 plans 1@7
d1 commit 8 cost 0 seats 8:1:* prices* outcomes 8:confirmed
f1 request 9 2 4 1 600 300 = waiting
f1 batch = asked 9
d1 open 9 at 0 requests 9 plans 1@8
d1 commit 9 cost 3600 seats prices 9:3600 pays outcomes 9:away
f1 end
d1 end
[audit]
yes entries 38 confirmed 8 away 1 picked 0 dropped 0 finished yes
";

const REQUESTS: &str = "
[case] at most 100000 requests are accepted
[fleet]
[feed]
<100001|request % 2 4 1 600 300
>[written]
log 1 feeds 1 desks 1
<100000|f1 request % 2 4 1 600 300 = waiting
>f1 request 100001 2 4 1 600 300 = refused 6
f1 end
d1 end
[audit]
yes entries 100003 confirmed 0 away 0 picked 0 dropped 0 finished yes

[case] ids have at most 18 digits
[fleet]
set batch 1
vehicle 1 2 1 0
[feed]
request 999999999999999999 2 4 1 600 300
request 9999999999999999999 2 4 1 600 300
[written]
log 1 feeds 1 desks 1
f1 request 999999999999999999 2 4 1 600 300 = waiting
f1 bad 2
f1 end
d1 end
[audit]
yes entries 4 confirmed 0 away 0 picked 0 dropped 0 finished yes
";

const LONG_LINES: &str = "
[case] an over-long line is bad and a comment is not
[feed]
<201|x>
#<200|x>[written]
log 1 feeds 1 desks 1
f1 bad 1
f1 end
d1 end
[audit]
yes entries 3 confirmed 0 away 0 picked 0 dropped 0 finished yes

[case] an over-long comment of a map
[map]
<201|c>
p sp 2 0[written]
log 1 feeds 1 desks 1
f1 end
d1 end
[audit]
yes entries 2 confirmed 0 away 0 picked 0 dropped 0 finished yes

[case] an over-long comment of a fleet file
[fleet]
<201|#>[written]
log 1 feeds 1 desks 1
f1 end
d1 end
[audit]
yes entries 2 confirmed 0 away 0 picked 0 dropped 0 finished yes
";

const FLEETS: &str = "
[case] the greatest values of a fleet file
[fleet]
set batch 128
set penalty 1000000000000
set drive 1000
set wait 1000
set lead 3600
set dwell 3600
set log 1
vehicle 1 16 4 1000000000 4
[written]
log 1 feeds 1 desks 1
f1 end
d1 end
[audit]
yes entries 2 confirmed 0 away 0 picked 0 dropped 0 finished yes

[case] a fleet of 1000 vehicles
[fleet]
<1000|vehicle % 2 1 0
>[written]
log 1 feeds 1 desks 1
f1 end
d1 end
[audit]
yes entries 2 confirmed 0 away 0 picked 0 dropped 0 finished yes

[case] a fleet file of a mebibyte
[fleet]
<1048576|
>[written]
log 1 feeds 1 desks 1
f1 end
d1 end
[audit]
yes entries 2 confirmed 0 away 0 picked 0 dropped 0 finished yes
";
