// Steps of replica 1 of its group, at n = 3, C = 16: with S = 1 it is a follower, and with S = 2 it is told to enter a view.
use crate::bases::bytes_of;
use crate::bench::Bench;
use rules::kind::{CHANGE_VIEW, TICK, TRANSACTION};
use rules::{Entry, Header, Message, OUTSIDE};
use scripts::Row;

// The length of its state with S = 1 and with S = 2.
const LENGTH: usize = 3467;

const LENGTH_OF_TWO: usize = 4004;

// The header of a message from outside to replica 1 of a group.
fn header(kind: u8, to_group: u8, view: u32) -> Header {
    Header {
        kind,
        to_group,
        to_mask: 2,
        from_group: OUTSIDE,
        from_replica: OUTSIDE,
        view,
    }
}

// The bytes of a message that has that length.
fn written<const N: usize>(s: u64, m: Message, views: &[u8], entries: &[u8]) -> Option<[u8; N]> {
    let mut bytes = [0; N];
    let length = rooms::write(3, s, m, views, entries, &mut bytes).ok()?;
    (length == N).then_some(bytes)
}

impl Bench<'_> {
    // The digest of the first bytes of the memory, as the state with S = 1.
    fn state_digest(&self) -> Option<u64> {
        Some(digest::digest_of(self.memory.get(..LENGTH)?))
    }

    // The digest of the outgoing bytes.
    fn sent_digest(&self) -> u64 {
        digest::digest_of(self.out)
    }

    // A step with that room for what is sent: its whole answer.
    fn step(&mut self, s: u64, length: usize, message: &[u8], room: usize) -> Option<u64> {
        let state = self.memory.get_mut(..length)?;
        let out = self.out.get_mut(..room)?;
        Some(replica::jallumere_step(3, s, 16, state, message, out))
    }

    // A transaction arrives. A row has its request, time, bound, coordinator and command.
    fn arrives(&mut self, row: &Row<'_>) -> Option<u64> {
        let [request, time, bound, coordinator, command, _] = row.numbers;
        let entry = bytes_of(Entry {
            stamp: 0,
            command,
            request: u32::try_from(request).ok()?,
            coordinator: u16::try_from(coordinator).ok()?,
            mask: 1,
        });
        let m = Message::Transaction(header(TRANSACTION, 0, 0), time, bound);
        let message: [u8; 64] = written(1, m, &[], &entry)?;
        self.step(1, LENGTH, &message, 128)
    }

    // A tick, with that room for what is sent.
    fn tick(&mut self, time: u64, room: u64) -> Option<u64> {
        let m = Message::Tick(header(TICK, 0, 0), time);
        let message: [u8; 32] = written(1, m, &[], &[])?;
        self.step(1, LENGTH, &message, room as usize)
    }

    // Group 1 of two is told to enter view 4, with gVec 5 and 7.
    fn enter(&mut self) -> Option<u64> {
        let m = Message::ChangeView(header(CHANGE_VIEW, 1, 4));
        let message: [u8; 32] = written(2, m, &[5, 0, 0, 0, 7, 0, 0, 0], &[])?;
        self.step(2, LENGTH_OF_TWO, &message, 512)
    }

    // The step of a row. Keeps its answer, none where it cannot be made, and answers its number.
    fn stepped(&mut self, row: &Row<'_>) -> Option<u64> {
        let [first, second, ..] = row.numbers;
        self.answer = match row.asks {
            'a' => self.arrives(row),
            't' => self.tick(first, second),
            _ => self.enter(),
        };
        Some(self.answer? % 256)
    }

    // Keeps the digests of the state and of the outgoing bytes.
    fn keep(&mut self) -> Option<u64> {
        self.state = Some(self.state_digest()?);
        self.sent = Some(self.sent_digest());
        Some(0)
    }

    // What a row asks.
    pub fn ask(&mut self, row: &Row<'_>) -> Option<u64> {
        let [first, ..] = row.numbers;
        match row.asks {
            'a' | 't' | 'c' => self.stepped(row),
            'q' => self.answer,
            'd' => self.keep(),
            'u' => Some(u64::from(self.state? == self.state_digest()?)),
            'o' => Some(u64::from(self.sent? == self.sent_digest())),
            'k' => self.out.get(first as usize).copied().map(u64::from),
            _ => None,
        }
    }
}
