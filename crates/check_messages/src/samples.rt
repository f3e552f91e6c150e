// One message of each kind, of three replicas and two groups, and what a message says.
use rules::kind::{
    CHANGE_VIEW, COMMIT, FAST_REPLY, REPLICA_SYNC, SLOW_REPLY, START_VIEW, SYNC_STATUS, TICK,
    TIMESTAMP_NOTE, TRANSACTION, VERIFY_REPLY, VERIFY_REQUEST, VOTE,
};
use rules::{Answer, Header, Message};

// What a message says: its case by the kind, its header, and its numbers, 0 where it has none.
#[derive(Clone, Copy)]
pub struct Told {
    pub kind: u8,
    pub header: Header,
    pub numbers: [u64; 3],
}

impl Told {
    // What a message says, nothing for bytes that are none.
    pub fn by(m: Message) -> Option<Told> {
        let (kind, header, numbers) = match m {
            Message::WrongSizes | Message::Malformed(_) => return None,
            Message::Transaction(h, time, bound) => (TRANSACTION, h, [time, bound, 0]),
            Message::Note(h) => (TIMESTAMP_NOTE, h, [0; 3]),
            Message::ReplicaSync(h) => (REPLICA_SYNC, h, [0; 3]),
            Message::FastReply(h, placed, position, sum) => {
                (FAST_REPLY, h, [placed, position, sum])
            }
            Message::SlowReply(h, position) => (SLOW_REPLY, h, [position, 0, 0]),
            Message::ChangeView(h) => (CHANGE_VIEW, h, [0; 3]),
            Message::Vote(h, normal, sync) => (VOTE, h, [normal, sync, 0]),
            Message::StartView(h) => (START_VIEW, h, [0; 3]),
            Message::SyncStatus(h, sync) => (SYNC_STATUS, h, [sync, 0, 0]),
            Message::Commit(h, commit) => (COMMIT, h, [commit, 0, 0]),
            Message::VerifyRequest(h, boundary) => (VERIFY_REQUEST, h, [boundary, 0, 0]),
            Message::VerifyReply(h) => (VERIFY_REPLY, h, [0; 3]),
            Message::Tick(h, time) => (TICK, h, [time, 0, 0]),
        };
        Some(Told {
            kind,
            header,
            numbers,
        })
    }
}

// The number that the writer answers.
pub fn number_of(answer: Answer) -> u64 {
    answer.map_or_else(|refusal| u64::from(refusal.number()), |_| 0)
}

// The message of a kind, one that is none for another number. The view is 3 where there is one.
pub fn message_of(kind: u8) -> Message {
    let head = |to_group, to_mask, from_group, from_replica, view| Header {
        kind,
        to_group,
        to_mask,
        from_group,
        from_replica,
        view,
    };
    match kind {
        TRANSACTION => Message::Transaction(head(0, 7, 255, 255, 0), 100, 7),
        TIMESTAMP_NOTE => Message::Note(head(0, 1, 1, 0, 3)),
        REPLICA_SYNC => Message::ReplicaSync(head(0, 6, 0, 0, 3)),
        FAST_REPLY => Message::FastReply(head(255, 1, 0, 2, 3), 1, 9, 0xcbf29ce484222325),
        SLOW_REPLY => Message::SlowReply(head(255, 1, 1, 2, 3), 0x0102030405060708),
        CHANGE_VIEW => Message::ChangeView(head(1, 7, 255, 255, 3)),
        VOTE => Message::Vote(head(0, 1, 0, 2, 3), 2, 1),
        START_VIEW => Message::StartView(head(0, 6, 0, 0, 3)),
        SYNC_STATUS => Message::SyncStatus(head(0, 1, 0, 1, 3), 0xffffffffffffffff),
        COMMIT => Message::Commit(head(0, 2, 0, 0, 3), 4),
        VERIFY_REQUEST => Message::VerifyRequest(head(0, 1, 1, 0, 3), 12),
        VERIFY_REPLY => Message::VerifyReply(head(0, 1, 1, 0, 3)),
        TICK => Message::Tick(head(0, 2, 255, 255, 0), 5),
        _ => Message::Malformed(0),
    }
}

// Two entries of both groups: requests 1 and 2 of coordinator 4, with a timestamp below 256 and the timestamp 9, and the commands 6 and 7.
fn two_entries(stamp: u8) -> [u8; 48] {
    let mut block = [0; 48];
    block[0] = stamp;
    block[8] = 6;
    block[16] = 1;
    block[20] = 4;
    block[22] = 3;
    block[24] = 9;
    block[32] = 7;
    block[40] = 2;
    block[44] = 4;
    block[46] = 3;
    block
}

// Writes the message of a kind, with as much of gVec 3, 2 and of those entries as its kind has; there is no timestamp yet in kind 1.
pub fn write_in(n: u64, s: u64, kind: u8, out: &mut [u8]) -> Answer {
    let gvec = [3u8, 0, 0, 0, 2, 0, 0, 0];
    let views: &[u8] = match kind {
        TRANSACTION | TICK => &[],
        _ => &gvec,
    };
    let block = two_entries(if kind == TRANSACTION { 0 } else { 5 });
    let entries: &[u8] = match kind {
        TRANSACTION | TIMESTAMP_NOTE | FAST_REPLY | SLOW_REPLY => &block[..24],
        REPLICA_SYNC | VOTE | START_VIEW | VERIFY_REPLY => &block,
        _ => &[],
    };
    let mut slots = [0; 80];
    wire::write(n, s, message_of(kind), views, entries, out, &mut slots)
}

// The message that these bytes are.
pub fn read(bytes: &[u8]) -> Message {
    let mut slots = [0; 80];
    wire::read(3, 2, bytes, &mut slots)
}
