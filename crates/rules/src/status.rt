// What a site is doing, by its byte: numbers, and no enum, since `places` reads and writes any byte there, and says so.
pub const NORMAL: u8 = 1;

pub const VIEW_CHANGE: u8 = 2;

pub const CROSS_SHARD: u8 = 3;
