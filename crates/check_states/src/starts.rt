// Fresh states of every shape, and what a start refuses.

// Every row of the topic.
pub const ROWS: &str = "\
# The lengths that are worked out by hand, and none for sizes that are not permitted.
l 3 1 16|3467|least state
l 7 8 4096|2187586|greatest state
l 4 1 16|0|no state of n = 4
l 7 9 16|0|no state of S = 9
l 7 8 15|0|no state of C = 15
# What a start refuses on the bytes of the state of n = 3, S = 1, C = 16.
s 4 1 16 0 0 3467|1|start, n = 4
r 0 8|xffffffffffffffff|nothing was written
s 0 1 16 0 0 3467|1|start, n = 0
r 0 8|xffffffffffffffff|nothing was written
s 3 0 16 0 0 3467|1|start, S = 0
r 0 8|xffffffffffffffff|nothing was written
s 3 9 16 0 0 3467|1|start, S = 9
r 0 8|xffffffffffffffff|nothing was written
s 3 1 15 0 0 3467|1|start, C = 15
r 0 8|xffffffffffffffff|nothing was written
s 3 1 4097 0 0 3467|1|start, C = 4097
r 0 8|xffffffffffffffff|nothing was written
s 3 1 16 1 0 3467|1|start, group S
r 0 8|xffffffffffffffff|nothing was written
s 3 1 16 256 0 3467|1|start, group 256
r 0 8|xffffffffffffffff|nothing was written
s 3 1 16 0 3 3467|1|start, replica n
r 0 8|xffffffffffffffff|nothing was written
s 3 1 16 0 256 3467|1|start, replica 256
r 0 8|xffffffffffffffff|nothing was written
# Every n and S, with the least C, the next and the greatest: the last replica of the last group starts.
h 3 16 2|8|C = 16, n = 3, 8 starts
h 5 16 4|8|C = 16, n = 5, 8 starts
h 7 16 6|8|C = 16, n = 7, 8 starts
h 3 17 2|8|C = 17, n = 3, 8 starts
h 5 17 4|8|C = 17, n = 5, 8 starts
h 7 17 6|8|C = 17, n = 7, 8 starts
h 3 4096 2|8|C = 4096, n = 3, 8 starts
h 5 4096 4|8|C = 4096, n = 5, 8 starts
h 7 4096 6|8|C = 4096, n = 7, 8 starts
# Sizes that are not permitted, where all else is right. With n = 0 or S = 0 there is no own number in range either.
z 3 1 16 3467|1|fresh bytes, n = 3, good
z 0 1 16 2237|0|fresh bytes, n = 0
z 1 1 16 2647|0|fresh bytes, n = 1
z 4 1 16 3877|0|fresh bytes, n = 4
z 9 1 16 5927|0|fresh bytes, n = 9
z 3 8 16 7226|1|fresh bytes, S = 8, good
z 3 0 16 2930|0|fresh bytes, S = 0
z 3 9 16 7763|0|fresh bytes, S = 9
z 3 1 17 3674|1|fresh bytes, C = 17, good
z 3 1 15 3260|0|fresh bytes, C = 15
z 3 1 4096 848027|1|fresh bytes, C = 4096, good
z 3 1 4097 848234|0|fresh bytes, C = 4097
";
