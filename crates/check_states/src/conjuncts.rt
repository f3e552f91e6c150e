// Each conjunct of a good state, broken alone by one number, and numbers at their bounds.

// The head, the views, the points and the points heard.
pub const HEADS: &str = "\
# The own numbers. With entries, a group S would also be in none of their masks.
g 0 0 0 1 3|0|fresh, broken: own group S
g 0 0 0 1 2|1|fresh, good: own group S - 1
g 0 0 1 1 3|0|fresh, broken: own replica n
g 3 0 2 1 0|0|view change, broken: status 0
g 3 0 2 1 4|0|view change, broken: status 4
# The five zeros of the head.
g 1 0 3 1 1|0|leader, broken: first zero of the head
g 1 0 4 1 1|0|leader, broken: second zero
g 1 0 5 1 1|0|leader, broken: third zero
g 1 0 6 1 1|0|leader, broken: fourth zero
g 1 0 7 1 1|0|leader, broken: fifth zero
# Clock and boundary.
g 1 0 16 8 x8000000000000000|0|leader, broken: clock 2^63
g 1 0 16 8 x7fffffffffffffff|1|leader, good: clock 2^63 - 1
g 1 0 40 8 x8000000000000000|0|leader, broken: boundary 2^63
g 1 0 40 8 x7fffffffffffffff|1|leader, good: boundary 2^63 - 1
# The last normal gView, where gView is 5.
g 1 0 12 4 4|0|leader, broken: last normal below gView
g 1 0 12 4 6|0|leader, broken: last normal above gView
g 3 0 12 4 5|0|view change, broken: last normal equal to gView
g 3 0 12 4 6|0|view change, broken: last normal above gView
g 4 0 12 4 5|0|cross-shard, broken: last normal equal to gView
g 4 0 12 4 6|0|cross-shard, broken: last normal above gView
# The leader, by the own group's view.
g 4 1 4 4 6|0|cross-shard, broken: at a follower
g 3 1 4 4 6|1|view change, good: at a follower
# Commit point, sync point and log length.
g 2 0 32 8 3|0|follower, broken: commit above sync
g 2 0 32 8 2|1|follower, good: commit equal to sync
g 2 0 24 8 4|0|follower, broken: sync above the log length
g 2 0 24 8 3|1|follower, good: sync equal to the log length
g 1 0 24 8 2|0|leader, broken: sync below the log length
# The points heard.
g 1 2 1 8 4|0|leader, broken: heard above sync
g 1 2 1 8 3|1|leader, good: heard equal to sync
g 3 2 1 8 4|1|view change, good: heard above sync
g 2 2 0 1 1|0|follower, broken: heard 0
g 2 2 0 2 257|0|follower, broken: heard 1
";

// Votes and replies kept, the notes, and what a leader's early entries have to do with them.
pub const KEPT: &str = "\
# Votes: that of replica 0, and an empty one of replica 1, with which there are F + 1.
g 3 7 1 4 5|0|view change, broken: vote, last normal gView
g 3 7 1 4 4|1|view change, good: vote, last normal gView - 1
g 3 7 5 8 3|0|view change, broken: vote, sync above its length
g 3 7 5 8 2|1|view change, good: vote, sync equal to its length
g 3 7 401 1 1|0|view change, broken: F + 1 votes
g 4 7 401 1 1|1|cross-shard, good: F + 1 votes
# Replies: that of group 0, and an empty one of the own group 1 or of group 2, with which there are S - 1.
g 4 9 27 2 2|0|cross-shard, broken: reply lacks its group
g 1 9 389 1 1|0|leader, broken: reply of the own group
g 4 9 778 1 1|0|cross-shard, broken: S - 1 replies
g 3 9 778 1 1|1|view change, good: S - 1 replies
# The third note, that of group 2 for a transaction that is not here yet.
g 1 6 70 4 0|0|leader, broken: note, request 0
g 1 6 74 2 65535|0|leader, broken: note, coordinator 65535
g 1 6 74 2 65534|1|leader, good: note, coordinator 65534
g 1 6 94 2 0|0|leader, broken: note, no group heard
g 1 6 95 8 0|0|leader, broken: note, timestamp 0
g 1 6 95 8 x8000000000000000|0|leader, broken: note, timestamp 2^63
g 1 6 95 8 x7fffffffffffffff|1|leader, good: note, timestamp 2^63 - 1
g 1 6 70 4 4|0|leader, broken: two notes for one transaction
# A leader's early entries in status 1: the second agreed, at the greatest of 30, 25 and 28, the first at the own note.
g 1 6 37 4 9|0|leader, broken: early without a note
g 1 6 19 2 0|0|leader, broken: early without its own note
g 1 4 28 8 25|0|leader, broken: agreed, at the own note
g 1 4 28 8 31|0|leader, broken: agreed, above the greatest
g 1 4 4 8 21|0|leader, broken: not agreed, off its note
g 2 4 4 8 21|1|follower, good: not agreed, off its note
g 3 4 4 8 21|1|view change, good: not agreed, off its note
# One note more for the first, of mask 3: group 0 is in the mask, and group 2 is not.
g 1 6 43 2 4865|1|leader, good: agreed by a lower note
g 1 6 43 2 8705|0|leader, broken: agreed by a greater note
g 1 6 61 2 8705|1|leader, good: noted past its mask
";

// The entries of each log.
pub const LOGS: &str = "\
# A log: its first entry out of range, at its bounds, or not of the own group (an empty mask also lacks it); the last timestamp that is in
# range, and the next, of an entry after which none stands; order, and a transaction that stands twice. In the log itself such a
# transaction also stands twice over log, early and late.
g 5 3 4 8 0|0|no early entry, log: timestamp 0
g 5 3 20 4 0|0|no early entry, log: request 0
g 5 3 24 2 65535|0|no early entry, log: coordinator 65535
g 5 3 24 2 65534|1|no early entry, log: coordinator 65534, good
g 5 3 26 2 11|0|no early entry, log: mask past S
g 5 3 26 2 5|0|no early entry, log: mask lacks the own group
g 5 3 26 2 0|0|no early entry, log: mask empty
g 5 3 52 8 x7fffffffffffffff|1|no early entry, log: last timestamp, good
g 5 3 52 8 x8000000000000000|0|no early entry, log: timestamp 2^63
g 5 3 4 8 22|0|no early entry, log: timestamps fall
g 5 3 20 4 2|0|no early entry, log: transaction twice
# The same of the draft,
g 1 8 4 8 0|0|leader, draft: timestamp 0
g 1 8 20 4 0|0|leader, draft: request 0
g 1 8 24 2 65535|0|leader, draft: coordinator 65535
g 1 8 24 2 65534|1|leader, draft: coordinator 65534, good
g 1 8 26 2 11|0|leader, draft: mask past S
g 1 8 26 2 5|0|leader, draft: mask lacks the own group
g 1 8 26 2 0|0|leader, draft: mask empty
g 1 8 28 8 x7fffffffffffffff|1|leader, draft: last timestamp, good
g 1 8 28 8 x8000000000000000|0|leader, draft: timestamp 2^63
g 1 8 4 8 22|0|leader, draft: timestamps fall
g 1 8 20 4 2|0|leader, draft: transaction twice
# of a vote
g 3 7 17 8 0|0|view change, vote: timestamp 0
g 3 7 33 4 0|0|view change, vote: request 0
g 3 7 37 2 65535|0|view change, vote: coordinator 65535
g 3 7 37 2 65534|1|view change, vote: coordinator 65534, good
g 3 7 39 2 11|0|view change, vote: mask past S
g 3 7 39 2 5|0|view change, vote: mask lacks the own group
g 3 7 39 2 0|0|view change, vote: mask empty
g 3 7 41 8 x7fffffffffffffff|1|view change, vote: last timestamp, good
g 3 7 41 8 x8000000000000000|0|view change, vote: timestamp 2^63
g 3 7 17 8 22|0|view change, vote: timestamps fall
g 3 7 33 4 2|0|view change, vote: transaction twice
# and of a reply.
g 4 9 5 8 0|0|cross-shard, reply: timestamp 0
g 4 9 21 4 0|0|cross-shard, reply: request 0
g 4 9 25 2 65535|0|cross-shard, reply: coordinator 65535
g 4 9 25 2 65534|1|cross-shard, reply: coordinator 65534, good
g 4 9 27 2 11|0|cross-shard, reply: mask past S
g 4 9 27 2 5|0|cross-shard, reply: mask lacks the own group
g 4 9 27 2 0|0|cross-shard, reply: mask empty
g 4 9 29 8 x7fffffffffffffff|1|cross-shard, reply: last timestamp, good
g 4 9 29 8 x8000000000000000|0|cross-shard, reply: timestamp 2^63
g 4 9 5 8 22|0|cross-shard, reply: timestamps fall
g 4 9 21 4 2|0|cross-shard, reply: transaction twice
";

// The entries of the early buffer and of the late one.
pub const BUFFERS: &str = "\
# Early entries. Without a log, since an early timestamp 0 would also be below the log's last.
g 6 4 4 8 0|0|no log, early: timestamp 0
g 6 4 20 4 0|0|no log, early: request 0
g 6 4 24 2 65535|0|no log, early: coordinator 65535
g 6 4 24 2 65534|1|no log, early: coordinator 65534, good
g 6 4 26 2 11|0|no log, early: mask past S
g 6 4 26 2 5|0|no log, early: mask lacks the own group
g 6 4 26 2 0|0|no log, early: mask empty
g 6 4 28 8 x7fffffffffffffff|1|no log, early: last timestamp, good
g 6 4 28 8 x8000000000000000|0|no log, early: timestamp 2^63
# Late ones.
g 6 5 4 8 0|0|no log, late: timestamp 0
g 6 5 20 4 0|0|no log, late: request 0
g 6 5 24 2 65535|0|no log, late: coordinator 65535
g 6 5 24 2 65534|1|no log, late: coordinator 65534, good
g 6 5 26 2 11|0|no log, late: mask past S
g 6 5 26 2 5|0|no log, late: mask lacks the own group
g 6 5 26 2 0|0|no log, late: mask empty
g 6 5 4 8 x7fffffffffffffff|1|no log, late: last timestamp, good
g 6 5 4 8 x8000000000000000|0|no log, late: timestamp 2^63
# A transaction twice over log, early and late; and a timestamp below the log's last. Request 1 of coordinator 8 is another.
g 2 4 44 4 1|0|follower, broken: twice, log and early
g 2 5 20 4 1|0|follower, broken: twice, log and late
g 2 5 20 4 4|0|follower, broken: twice, early and late
g 2 4 44 4 5|0|follower, broken: twice in early
g 2 5 20 4 7|0|follower, broken: twice in late
g 2 4 44 8 x7000800000001|1|follower, good: another coordinator
g 2 4 4 8 19|0|follower, broken: early below the log
g 2 4 4 8 31|0|follower, broken: early not in order
g 3 4 4 8 31|0|view change, broken: early not in order
g 2 4 4 8 30|0|follower, broken: early, requests of one timestamp fall
g 2 4 28 8 21|1|follower, good: early at a lower timestamp, still in order
g 2 5 4 8 21|1|follower, good: late above the log
";
