// The kinds of messages: the table of document 01, a row for each, and what is read off it.
#![tactic(auto)]

ghost use Rattle.std.specs.Prelude.{◌≡◌, Bool, true, false, ℕ, ◌+◌, ◌*◌, ◌^◌, ◌≤◌, ◌<◌};
ghost use Rattle.rules.specs.Kind as kinds;
ghost use Rattle.rules.specs.Read as reading;
ghost use Rattle.kinds.specs.Rows.{row_as, listed_as};

use rules::Body::*;
use rules::Receiver::*;
use rules::Sender::*;
use rules::Views::*;
use rules::kind::*;
use rules::{Body, Receiver, Sender, Views, status};

// What a kind has and needs. The statuses are a mask, and count in an equal view only where that is said.
#[derive(Clone, Copy)]
pub struct Row {
    pub known: bool,
    pub numbers: u64,
    pub body: Body,
    pub bare: bool,
    pub sender: Sender,
    pub receiver: Receiver,
    pub views: Views,
    pub statuses: u8,
    pub only_if_equal: bool,
}

// The statuses that a kind is taken in, a bit for each, and whether they count in an equal view only.
#[derive(Clone, Copy)]
struct Taken {
    statuses: u8,
    only_if_equal: bool,
}

const ANY_STATUS: Taken = Taken {
    statuses: 255,
    only_if_equal: false,
};

const NORMAL: Taken = Taken {
    statuses: 1 << status::NORMAL,
    only_if_equal: false,
};

const CHANGE: Taken = Taken {
    statuses: 1 << status::VIEW_CHANGE,
    only_if_equal: true,
};

const CROSS: Taken = Taken {
    statuses: 1 << status::CROSS_SHARD,
    only_if_equal: false,
};

const NO_CHANGE: Taken = Taken {
    statuses: 1 << status::NORMAL | 1 << status::CROSS_SHARD,
    only_if_equal: false,
};

// Whether a kind has gView and gVec, or gView 0 and no gVec.
const GVEC: bool = false;

const BARE: bool = true;

const NO_KIND: Row = Row {
    known: false,
    numbers: 0,
    body: Body::NoBody,
    bare: false,
    sender: Sender::AnyReplica,
    receiver: Receiver::Anyone,
    views: Views::BothEqual,
    statuses: 1 << status::NORMAL,
    only_if_equal: false,
};

// A row of the table.
fn listed(
    numbers: u64,
    body: Body,
    bare: bool,
    sender: Sender,
    receiver: Receiver,
    views: Views,
    taken: Taken,
) -> Row
    ensures { result ≡ listed_as numbers body bare sender receiver views taken }
{
    Row {
        known: true,
        numbers,
        body,
        bare,
        sender,
        receiver,
        views,
        statuses: taken.statuses,
        only_if_equal: taken.only_if_equal,
    }
}

// The table of kinds.
pub fn row_of(kind: u8) -> Row
    ensures { result ≡ row_as kind }
{
    match kind {
        TRANSACTION => listed(2, OneEntry, BARE, Outsider, Anyone, AnyView, NORMAL),
        TIMESTAMP_NOTE => listed(0, OneEntry, GVEC, OtherLeader, ALeader, BothEqual, NORMAL),
        REPLICA_SYNC => listed(0, ALog, GVEC, OwnLeader, AFollower, BothEqual, NORMAL),
        FAST_REPLY => listed(3, OneEntry, GVEC, AnyReplica, Outsiders, BothEqual, NORMAL),
        SLOW_REPLY => listed(1, OneEntry, GVEC, AnyReplica, Outsiders, BothEqual, NORMAL),
        CHANGE_VIEW => listed(0, NoBody, GVEC, Outsider, Anyone, Greater, ANY_STATUS),
        VOTE => listed(2, ALog, GVEC, OwnReplica, ALeader, GreaterOrEqual, CHANGE),
        START_VIEW => listed(0, ALog, GVEC, OwnLeader, AFollower, GreaterOrEqual, CHANGE),
        SYNC_STATUS => listed(1, NoBody, GVEC, OwnReplica, ALeader, BothEqual, NORMAL),
        COMMIT => listed(1, NoBody, GVEC, OwnLeader, AFollower, BothEqual, NORMAL),
        VERIFY_REQUEST => listed(1, NoBody, GVEC, OtherLeader, ALeader, BothEqual, NO_CHANGE),
        VERIFY_REPLY => listed(0, ALog, GVEC, OtherLeader, ALeader, BothEqual, CROSS),
        TICK => listed(1, NoBody, BARE, Outsider, Anyone, AnyView, NORMAL),
        _ => NO_KIND,
    }
}

// Whether it comes from outside every group.
pub fn from_outside(kind: u8) -> bool
    ensures { result ≡ kinds.from_outside kind }
{
    let sender = row_of(kind).sender;
    match sender {
        Outsider => true,
        _ => false,
    }
}

// Whether it goes to outside every group.
pub fn to_outside(kind: u8) -> bool
    ensures { result ≡ kinds.to_outside kind }
{
    let receiver = row_of(kind).receiver;
    match receiver {
        Outsiders => true,
        _ => false,
    }
}

// Whether it has gView 0 and no gVec.
pub fn bare(kind: u8) -> bool
    ensures { result ≡ kinds.bare kind }
{
    row_of(kind).bare
}

// Whether it has one entry.
pub fn with_one(kind: u8) -> bool
    ensures { result ≡ kinds.with_one kind }
{
    let body = row_of(kind).body;
    match body {
        OneEntry => true,
        _ => false,
    }
}

// Whether it has a log.
pub fn with_log(kind: u8) -> bool
    ensures { result ≡ kinds.with_log kind }
{
    let body = row_of(kind).body;
    match body {
        ALog => true,
        _ => false,
    }
}

// Whether there is such a kind.
pub fn known(kind: u8) -> bool
    ensures { result ≡ kinds.known kind }
{
    row_of(kind).known
}

// How many items its gVec has.
pub fn views_in(s: u64, kind: u8) -> u64
    ensures { (result ≡ kinds.views_in s kind) × (result ≤ s) }
{
    if bare(kind) {
        return 0;
    }
    s
}

// How many numbers it has.
pub fn numbers_in(kind: u8) -> u64
    ensures { (result ≡ kinds.numbers_in kind) × (result ≤ 3) }
{
    row_of(kind).numbers
}

// Where the count of its numbers stands.
pub fn numbers_at(s: u64, kind: u8) -> usize
    requires { s ≤ 8 }
    ensures { (result ≡ reading.numbers_at s kind) × (result ≤ 48) }
{
    16 + 4 * views_in(s, kind) as usize
}

// Where the count of its entries stands.
pub fn entries_at(s: u64, kind: u8) -> usize
    requires { s ≤ 8 }
    ensures { (result ≡ reading.entries_at s kind) × (result ≤ 76) }
{
    numbers_at(s, kind) + 4 + 8 * numbers_in(kind) as usize
}

// The length of a message.
pub fn length_for(s: u64, kind: u8, entries: usize) -> usize
    requires { (s ≤ 8) × (entries < 2 ^ 32) }
    ensures { result ≡ reading.length_for s kind entries }
{
    entries_at(s, kind) + 4 + 24 * entries
}
