// The kinds of messages, by their bytes: numbers, and no enum, since a header may hold any byte, and what `kinds` promises it promises of each.
pub const TRANSACTION: u8 = 1;

pub const TIMESTAMP_NOTE: u8 = 3;

pub const REPLICA_SYNC: u8 = 4;

pub const FAST_REPLY: u8 = 5;

pub const SLOW_REPLY: u8 = 6;

pub const CHANGE_VIEW: u8 = 7;

pub const VOTE: u8 = 8;

pub const START_VIEW: u8 = 9;

pub const SYNC_STATUS: u8 = 10;

pub const COMMIT: u8 = 11;

pub const VERIFY_REQUEST: u8 = 18;

pub const VERIFY_REPLY: u8 = 19;

pub const TICK: u8 = 23;
