// The form of the bytes: flags 0 or 1, zeros behind an unset flag, free places zero, counts within C, and the length.

// Every row of the topic.
pub const ROWS: &str = "\
# The states as they are: a number is put over itself.
g 0 0 0 1 1|1|fresh, good: unchanged
g 1 0 0 1 1|1|leader, good: unchanged
g 2 0 0 1 1|1|follower, good: unchanged
g 3 0 0 1 1|1|view change, good: unchanged
g 4 0 0 1 1|1|cross-shard, good: unchanged
g 5 0 0 1 1|1|no early entry, good: unchanged
g 6 0 0 1 1|1|no log, good: unchanged
g 7 0 0 1 1|1|full, good: unchanged
# The leader's bytes with one fewer and one more.
b 1 4540|0|one byte less
b 1 4541|1|exact length
b 1 4542|0|one byte more
# A flag that is 2.
g 1 2 0 1 2|0|leader, broken: flag 2 of a point heard
g 1 6 94 1 2|0|leader, broken: flag 2 in a note
g 3 7 0 1 2|0|view change, broken: flag 2 of a vote
g 4 9 0 1 2|0|cross-shard, broken: flag 2 of a reply
# A byte that is not zero behind a flag that is not set: of replica 1, of group 0 in the third note, of group 2.
g 1 2 10 1 1|0|leader, broken: unset, a point heard
g 1 6 84 1 1|0|leader, broken: unset, in a note
g 1 7 402 4 1|0|leader, broken: unset, a vote's last normal
g 1 7 406 8 1|0|leader, broken: unset, a vote's sync point
g 1 7 414 4 1|0|leader, broken: unset, a vote's count
g 1 7 801 1 1|0|leader, broken: unset, a vote's last byte
g 1 9 779 4 1|0|leader, broken: unset, a reply's count
g 1 9 1166 1 1|0|leader, broken: unset, a reply's last byte
# The first byte of each table's first free place.
g 1 3 76 1 1|0|leader, broken: free place of the log
g 1 4 52 1 1|0|leader, broken: free place of early
g 1 5 52 1 1|0|leader, broken: free place of late
g 1 6 103 1 1|0|leader, broken: free place of the notes
g 1 7 65 1 1|0|leader, broken: free place of a vote
g 1 8 52 1 1|0|leader, broken: free place of the draft
g 1 9 53 1 1|0|leader, broken: free place of a reply
# The last byte of each table, one before what stands next.
g 1 3 387 1 1|0|leader, broken: last byte of the log
g 1 4 387 1 1|0|leader, broken: last byte of early
g 1 5 387 1 1|0|leader, broken: last byte of late
g 1 6 531 1 1|0|leader, broken: last byte of the notes
g 1 7 400 1 1|0|leader, broken: last byte of a vote
g 1 8 387 1 1|0|leader, broken: last byte of the draft
g 1 9 388 1 1|0|leader, broken: last byte of a reply
# A count past C of a full table. It is read as C, so it is the form that it breaks.
g 7 3 0 4 17|0|full, broken: 17 logged
g 7 4 0 4 17|0|full, broken: 17 early
g 7 5 0 4 17|0|full, broken: 17 late
g 7 6 0 4 17|0|full, broken: 17 notes
g 7 7 13 4 17|0|full, broken: 17 in a vote
g 7 8 0 4 17|0|full, broken: 17 in the draft
g 7 9 1 4 17|0|full, broken: 17 in a reply
";
