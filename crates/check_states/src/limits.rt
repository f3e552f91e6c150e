// The room of a log and of what is sent, through the whole step.

// Every row of the topic.
pub const ROWS: &str = "\
# Replica 1 of one group, a follower in view 0, takes 16 transactions, each due at the time of its request, and releases them at 100. Its log
# begins at 79, and early at 467.
s 3 1 16 0 1 3467|0|follower of C = 16, start
a 1 1
a 2 2
a 3 3
a 4 4
a 5 5
a 6 6
a 7 7
a 8 8
a 9 9
a 10 10
a 11 11
a 12 12
a 13 13
a 14 14
a 15 15
r 467 4|15|15 transactions
a 16 16|0|the 16th
t 100 2048|0|tick at 100
r 79 4|16|logged
r 467 4|0|early
a 17 200|0|one more, due at 200
r 467 4|1|early
# With 16 logged an entry that is not due is left, and one that is due gives 8, with every byte as it came.
t 199 2048|0|16 logged, tick at 199
r 79 4|16|logged
r 467 4|1|early
d
t 300 2048|8|16 logged, tick at 300: 8
u|1|state as it came
o|1|outgoing as it came
r 79 4|16|logged
r 467 4|1|early
# The same with 15.
s 3 1 16 0 1 3467|0|follower of C = 16, start
a 1 1
a 2 2
a 3 3
a 4 4
a 5 5
a 6 6
a 7 7
a 8 8
a 9 9
a 10 10
a 11 11
a 12 12
a 13 13
a 14 14
a 15 15
r 467 4|15|15 transactions
t 100 2048|0|tick at 100
r 79 4|15|logged
r 467 4|0|early
a 17 200|0|one more, due at 200
r 467 4|1|early
# The due entry is released where a fast reply of 76 bytes and a sync status of 36 have room; one byte less gives 9, with every byte as it came.
d
t 300 111|9|15 logged, tick at 300, room of 111: 9
u|1|state as it came
o|1|outgoing as it came
r 79 4|15|logged
r 467 4|1|early
t 300 112|0|15 logged, tick at 300, room of 112: 0
q|28672|bytes sent
k 0|5|kind 5 first
k 76|10|kind 10 behind it
r 79 4|16|logged
r 467 4|0|early
";
