// What a host asks of states and of outgoing bytes.

// Every row of the topic.
pub const ROWS: &str = "\
i|20100|version
m|0|is the model
# Replica 1 of group 1 at n = 3, S = 2, C = 16, fresh: the own numbers and status 1, all else 0, and replica 0 leads.
s 3 2 16 1 1 4004|0|start of replica 1 of group 1
f 3 2 16 4004 1|1|own group
f 3 2 16 4004 2|1|own replica
f 3 2 16 4004 3|1|status
f 3 2 16 4004 4|0|gView
f 3 2 16 4004 5|0|last normal gView
f 3 2 16 4004 6|0|clock
f 3 2 16 4004 9|0|log length
f 3 2 16 4004 10|0|leader
v 3 2 16 4004 0|0|view of group 0
v 3 2 16 4004 1|0|view of group 1
# It is told to enter view 4 with gVec 5 and 7, and leads its group there: 7 mod 3 is 1.
c|0|view 4 entered
f 3 2 16 4004 3|2|status
f 3 2 16 4004 4|4|gView
f 3 2 16 4004 5|0|last normal gView
f 3 2 16 4004 10|1|leader
v 3 2 16 4004 0|5|view of group 0
v 3 2 16 4004 1|7|view of group 1
v 3 2 16 4004 2|xffffffffffffffff|no group 2
# Numbers of no field, and wrong sizes.
f 3 2 16 4004 0|xffffffffffffffff|no field 0
f 3 2 16 4004 11|xffffffffffffffff|no field 11
f 4 2 16 4004 1|xffffffffffffffff|field, n = 4
f 3 2 17 4004 1|xffffffffffffffff|field, C = 17
v 3 1 16 4004 0|xffffffffffffffff|view, S = 1
f 3 2 16 4003 1|xffffffffffffffff|one byte less
# Bytes of the right length that are no good state, with own group 200 and 17 as the log's count: what stands there, a count above C as C, and
# replica 0 as the leader of no group.
p 0 1 200
p 83 4 17
w 3 2 16 4004|0|not a good state
f 3 2 16 4004 1|200|own group 200
f 3 2 16 4004 10|0|leader of no group
f 3 2 16 4004 9|16|log length past C
# Replica 1 of group 0 at S = 1, a follower, takes request 7 of coordinator 3, with command 11, and releases it at 9.
s 3 1 16 0 1 3467|0|start of replica 1 of group 0
a 7 4 1 3 11|0|transaction
t 9 112
q|28672|tick, 112 bytes sent
f 3 1 16 3467 6|9|clock
f 3 1 16 3467 7|0|sync point
f 3 1 16 3467 8|0|commit point
f 3 1 16 3467 9|1|log length
e 3 1 16 3467 1 1|5|timestamp
e 3 1 16 3467 1 2|11|command
e 3 1 16 3467 1 3|7|request
e 3 1 16 3467 1 4|3|coordinator
e 3 1 16 3467 1 5|1|mask
e 3 1 16 3467 1 0|xffffffffffffffff|no field 0 of it
e 3 1 16 3467 1 6|xffffffffffffffff|no field 6 of it
e 3 1 16 3467 0 1|xffffffffffffffff|no position 0
e 3 1 16 3467 2 1|xffffffffffffffff|no position 2
e 3 2 16 3467 1 1|xffffffffffffffff|entry, S = 2
# What it sent, cut into messages: a fast reply of 76 bytes and a sync status of 36.
n 3 1 0 112|76|first message
n 3 1 0 76|76|first message alone
n 3 1 76 112|36|second message
n 3 1 0 75|0|one byte less than a message
n 3 1 0 12|0|the header alone
n 3 1 112 112|0|no bytes
n 4 1 0 112|0|message, n = 4
n 3 9 0 112|0|message, S = 9
x 0 1 2
n 3 1 0 112|0|no kind 2
";
