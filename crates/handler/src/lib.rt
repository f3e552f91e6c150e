// What the handlers share: the own role, what a message says, and the writing of what is sent.
#![tactic(auto)]

ghost use Rattle.std.specs.Prelude.{◌≡◌, true, ◌&&◌, not, eqb, ◌+◌, ◌*◌, ◌/◌, ◌<◌, ◌≤◌, length};
ghost use Rattle.rules.specs.Group as sets;
ghost use Rattle.octets.specs.Bytes.{num, splice, flat};
ghost use Rattle.rules.specs.Wire.{first_entry, tag_of, numbers_of};
ghost use Rattle.rules.specs.Kind.{with_one};
ghost use Rattle.rules.specs.Read.{wire_in, length_for};
ghost use Rattle.rules.specs.Image.{state_of};
ghost use Rattle.rules.specs.State as rule;
ghost use Rattle.rules.specs.Step as steps;
ghost use Rattle.places.specs.Layout.{Stands, Sized};
ghost use Rattle.handler.specs.Handler.{Ready};
ghost use Rattle.handler.specs.Sending.{message_bytes, headed_in, others_in, asked_of, Asks, leader_bytes};

use rules::{Entry, Header, Message, Shape, kind};

// Whether the own replica leads its group.
pub fn leads(shape: Shape, state: &[u8]) -> bool
    requires { Stands shape (state_of shape state.now) state.now }
    ensures { result ≡ rule.leads shape (state_of shape state.now) }
{
    let own = places::get_group(state);
    let view = places::view_at(shape, state, own);
    group::leads(shape.n, view, places::get_replica(state))
}

// The one entry of a message of this kind.
pub fn first_entry(shape: Shape, state: &[u8], m: Message, message: &[u8], kind: u8) -> Entry
    requires { Ready shape state.now m message.now × (tag_of m ≡ kind) × (with_one kind ≡ true) }
    ensures { result ≡ first_entry (wire_in shape.s message.now) }
{
    entries::entry_at(message, kinds::entries_at(shape.s, kind) + 4)
}

// The header of what the site sends.
pub fn headed(state: &[u8], kind: u8, to_group: u8, to_mask: u8) -> Header
    requires { 48 ≤ length state.now }
    ensures { result ≡ headed_in state.now kind to_group to_mask }
{
    Header {
        kind,
        to_group,
        to_mask,
        from_group: octets::get8(state, 0),
        from_replica: octets::get8(state, 1),
        view: places::get_view(state),
    }
}

// Writes a message at `at`, with the state's gVec and these entries, and says where it ends.
pub fn tell(
    shape: Shape,
    state: &[u8],
    out: &mut [u8],
    at: usize,
    m: Message,
    entries: &[u8],
) -> usize
    requires { Sized shape state.now × (24 * (length entries.now / 24) ≡ length entries.now) × (length entries.now ≤ 98304)
        × (at + (24 + 4 * shape.s + 8 * length (numbers_of m) + length entries.now) ≤ length out.old) }
    ensures { let bytes = message_bytes shape state.now m entries.now in
        (result ≡ at + length bytes) × (out.new ≡ splice out.old at bytes) }
{
    let places = places::places_of(shape);
    writer::put_message(out, at, m, &state[places.views..places.heard], entries)
}

// Whether j is another group, and in the mask.
fn is_other(own: u64, mask: u16, j: u64) -> bool
    ensures { result ≡ (not (eqb j own) && sets.holds mask j) }
{
    (j != own) & group::holds(mask, j)
}

// How many other groups a mask names. By a loop: for filter and count over the range no proof was found.
pub fn count_others(shape: Shape, state: &[u8], mask: u16) -> u64
    requires { Sized shape state.now }
    ensures { (result ≡ length (others_in shape state.now mask)) × (result ≤ 8) }
{
    let own = places::get_group(state);
    let mut count: u64 = 0;
    for j in 0..shape.s {
        if is_other(own, mask, j) {
            count += 1;
        }
    }
    count
}

// What is asked of other groups' leaders: a note, or a verify request with its boundary.
#[derive(Clone, Copy, PartialEq, Eq)]
pub struct Asking {
    pub kind: u8,
    pub number: u64,
}

impl Asking {
    // The message that asks it.
    fn message(self, h: Header) -> Message
        ensures { result ≡ asked_of self.kind self.number h }
    {
        if self.kind == kind::TIMESTAMP_NOTE {
            return Message::Note(h);
        }
        Message::VerifyRequest(h, self.number)
    }
}

// Writes the message to the leader of group j at `at`, and says where it ends.
fn tell_leader(
    shape: Shape,
    state: &[u8],
    out: &mut [u8],
    at: usize,
    asking: Asking,
    j: u64,
    entries: &[u8],
) -> usize
    requires { Sized shape state.now × Asks asking.kind entries.now × (j < shape.s)
        × (at + length_for shape.s asking.kind (length entries.now / 24) ≤ length out.old) }
    ensures { let bytes = leader_bytes shape state.now asking.kind asking.number entries.now j in
        (result ≡ at + length bytes) × (out.new ≡ splice out.old at bytes)
        × (length bytes ≡ length_for shape.s asking.kind (length entries.now / 24)) }
{
    let leader = places::view_at(shape, state, j) as u64 % shape.n;
    let h = headed(state, asking.kind, j as u8, group::only(leader));
    tell(shape, state, out, at, asking.message(h), entries)
}

// Writes, from the start of the outgoing buffer on, a message to the leader of each other group in a mask, groups rising, and says where the
// last ends.
pub fn tell_leaders(
    shape: Shape,
    state: &[u8],
    out: &mut [u8],
    asking: Asking,
    mask: u16,
    entries: &[u8],
) -> usize
    requires { Sized shape state.now × Asks asking.kind entries.now
        × (length_for shape.s asking.kind (length entries.now / 24) * length (others_in shape state.now mask) ≤ length out.old) }
    ensures { let b = state.now in
        let bytes = flat (leader_bytes shape b asking.kind asking.number entries.now) (others_in shape b mask) in
        (result ≡ length bytes) × (out.new ≡ splice out.old 0 bytes) }
{
    let own = places::get_group(state);
    let mut at = 0;
    for j in 0..shape.s {
        if is_other(own, mask, j) {
            at = tell_leader(shape, state, out, at, asking, j, entries);
        }
    }
    at
}
