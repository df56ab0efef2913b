//! Empty files, bad lines, missing roads, and texts of odd forms.
use super::cases::expect_replays;

#[test]
fn odd_files_have_their_logs(rt: HostRuntime) {
    expect_replays(&rt, EMPTY);
    expect_replays(&rt, FAR);
    expect_replays(&rt, LAST_LINES);
    expect_replays(&rt, BLANKS);
}

/// Files with nothing in them, or with a line that is no command.
const EMPTY: &str = "
[case] an empty feed has two ends
[written]
log 1 feeds 1 desks 1
f1 end
d1 end
[audit]
yes entries 2 confirmed 0 away 0 picked 0 dropped 0 finished yes

[case] an empty fleet turns all away
[fleet]
[feed]
request 7 2 4 1 600 300
batch
[written]
log 1 feeds 1 desks 1
f1 request 7 2 4 1 600 300 = waiting
f1 batch = asked 1
d1 open 1 at 0 requests 7 plans
d1 commit 1 cost 3600 seats prices 7:3600 pays outcomes 7:away
f1 end
d1 end
[audit]
yes entries 6 confirmed 0 away 1 picked 0 dropped 0 finished yes

[case] a bad line is noted by its number
[fleet]
set batch 1
vehicle 1 2 1 0
[feed]
# a comment

banana
clock 20[written]
log 1 feeds 1 desks 1
f1 bad 3
f1 clock 20 = now 20
f1 end
d1 end
[audit]
yes entries 4 confirmed 0 away 0 picked 0 dropped 0 finished yes
";

/// Nodes without a road, or too far away.
const FAR: &str = "
[case] a request without a road is turned away
[map]
p sp 2 0
[feed]
request 7 1 2 1 600 300
batch
[written]
log 1 feeds 1 desks 1
f1 request 7 1 2 1 600 300 = waiting
f1 batch = asked 1
d1 open 1 at 0 requests 7 plans 1@0
d1 commit 1 cost 3600 seats prices 7:3600 pays outcomes 7:away
f1 end
d1 end
[audit]
yes entries 6 confirmed 0 away 1 picked 0 dropped 0 finished yes

[case] a report without a road to the first stop is refused
[map]
p sp 3 2
a 1 2 60
a 2 3 60
[feed]
request 7 2 3 1 600 300
batch
at 1 3 70
[written]
log 1 feeds 1 desks 1
f1 request 7 2 3 1 600 300 = waiting
f1 batch = asked 1
d1 open 1 at 0 requests 7 plans 1@0
d1 commit 1 cost 120 seats 7:1:0:0 prices* outcomes 7:confirmed
f1 at 1 3 70 = refused 13
f1 end
d1 end
[audit]
yes entries 7 confirmed 1 away 0 picked 0 dropped 0 finished yes

[case] a far node is turned away
[map]
p sp 2 1
a 1 2 1000000000
[fleet]
set batch 1
vehicle 1 2 1 0
[feed]
request 7 1 2 1 0 1000000
batch
[written]
log 1 feeds 1 desks 1
f1 request 7 1 2 1 0 1000000 = waiting
f1 batch = asked 1
d1 open 1 at 0 requests 7 plans 1@0
d1 commit 1 cost 3600 seats prices 7:3600 pays outcomes 7:away
f1 end
d1 end
[audit]
yes entries 6 confirmed 0 away 1 picked 0 dropped 0 finished yes
";

/// Maps without their last line's end.
const LAST_LINES: &str = "
[case] a map that ends within its last line
[map]
p sp 4 6
a 1 2 60
a 2 1 60
a 2 3 60
a 3 2 60
a 3 4 60
a 4 3 6[fleet]
set batch 1
vehicle 1 2 1 0
[feed]
request 7 2 4 1 600 300
batch
[written]
log 1 feeds 1 desks 1
f1 request 7 2 4 1 600 300 = waiting
f1 batch = asked 1
d1 open 1 at 0 requests 7 plans 1@0
d1 commit 1 cost 180 seats 7:1:0:0 prices* outcomes 7:confirmed
f1 end
d1 end
[audit]
yes entries 6 confirmed 1 away 0 picked 0 dropped 0 finished yes

[case] a map without its last line's end
[map]
p sp 4 6
a 1 2 60
a 2 1 60
a 2 3 60
a 3 2 60
a 3 4 60
a 4 3 60[fleet]
set batch 1
vehicle 1 2 1 0
[feed]
request 7 2 4 1 600 300
batch
[written]
log 1 feeds 1 desks 1
f1 request 7 2 4 1 600 300 = waiting
f1 batch = asked 1
d1 open 1 at 0 requests 7 plans 1@0
d1 commit 1 cost 180 seats 7:1:0:0 prices* outcomes 7:confirmed
f1 end
d1 end
[audit]
yes entries 6 confirmed 1 away 0 picked 0 dropped 0 finished yes
";

/// Blanks and comments.
const BLANKS: &str = "
[case] blanks, comments and the least of parallel arcs
[map]
c roads\r
p sp 2 4\r
a 1 2 60\r
a\t1 2  50 \r
a 2 1 60\r
a 1 1 7[feed]
request 7 1 2 1 600 300
batch
[written]
log 1 feeds 1 desks 1
f1 request 7 1 2 1 600 300 = waiting
f1 batch = asked 1
d1 open 1 at 0 requests 7 plans 1@0
d1 commit 1 cost 50 seats 7:1:0:0 prices* outcomes 7:confirmed
f1 end
d1 end
[audit]
yes entries 6 confirmed 1 away 0 picked 0 dropped 0 finished yes

[case] blanks, comments and the least of parallel arcs in a feed as well
[map]
c roads\r
p sp 2 4\r
a 1 2 60\r
a\t1 2  50 \r
a 2 1 60\r
a 1 1 7[feed]
# one request
\trequest  007 1 2 1 600 300 \r

batch[written]
log 1 feeds 1 desks 1
f1 request 7 1 2 1 600 300 = waiting
f1 batch = asked 1
d1 open 1 at 0 requests 7 plans 1@0
d1 commit 1 cost 50 seats 7:1:0:0 prices* outcomes 7:confirmed
f1 end
d1 end
[audit]
yes entries 6 confirmed 1 away 0 picked 0 dropped 0 finished yes
";
