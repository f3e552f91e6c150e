// The handler of votes (kind 8): each is kept, and with F+1 of them the log is rebuilt.
#![tactic(auto)]

ghost use Rattle.std.specs.Prelude.{◌≡◌, [], ◌+◌, ◌-◌, ◌*◌, ◌^◌, ◌≤◌, ◌<◌, length};
ghost use Rattle.octets.specs.Bytes.{part, splice, flat};
ghost use Rattle.rules.specs.Read.{length_for};
ghost use Rattle.rules.specs.Image.{table_length, table_at, image, state_of, at_draft};
ghost use Rattle.rules.specs.Step.{on_vote};
ghost use Rattle.rules.specs.Bytes.{left, closes};
ghost use Rattle.entries.specs.Table.{Table};
ghost use Rattle.places.specs.Layout.{start_of, Sized, Stands};
ghost use Rattle.handler.specs.Handler.{Ready, handled};
ghost use Rattle.handler.specs.Sending.{others_in, leader_bytes};
ghost use Rattle.views.specs.Views.{Spare};
ghost use Rattle.ballots.specs.Ballots.{votes_in, Sent};
ghost use Rattle.votes.specs.Votes.{Brought, is_second, count_with, came_to, kept_in, drafted_in, asks_all, concludes};

use ballots::Cast;
use handler::Asking;
use rules::{Answer, GroupSize, Message, Refusal, Shape, kind, status};
use views::Said;

// ---- the tests

// Whether the sender's vote is kept already. Where a greater view is entered, only the own one is.
fn is_second(shape: Shape, state: &[u8], cast: Cast) -> bool
    requires { Sent shape state.now cast }
    ensures { result ≡ is_second shape state.now cast }
{
    let kept = places::vote_flag(shape, state, cast.sender);
    !cast.entering & kept
}

// How many votes there are with this one. Where a greater view is entered, the own one is the other.
fn count_with(shape: Shape, state: &[u8], cast: Cast) -> u64
    requires { Sent shape state.now cast }
    ensures { result ≡ count_with shape state.now cast }
{
    if cast.entering {
        return 2;
    }
    places::held_votes(shape, state) + 1
}

// ---- what is kept

// Enters the vote's view where that is a greater one. The own vote is kept there.
fn come_to(shape: Shape, state: &mut [u8], view: u32, message: &[u8], entering: bool)
    requires { Stands shape (state_of shape state.old) state.old × (16 + 4 * shape.s ≤ length message.now) }
    ensures { state.new ≡ image shape (came_to shape state.old message.now view entering) }
{
    if entering {
        changes::enter(shape, state, view, true, message);
    }
}

// Keeps the vote under its sender's number, in its view.
fn keep_vote(shape: Shape, state: &mut [u8], message: &[u8], cast: Cast)
    requires { Brought shape state.old message.now cast.view cast }
    ensures { state.new ≡ image shape (kept_in shape state.old message.now cast.view cast) }
{
    let at = cast.at;
    let number = octets::get32(message, at) as usize;
    let normal = cast.normal as u32;
    come_to(shape, state, cast.view, message, cast.entering);
    let said = Said {
        normal,
        sync: cast.sync,
    };
    views::keep_vote(shape, state, cast.sender, said, message, at + 4, number);
}

// Takes over the rebuilt log as the draft, with its boundary: status 3.
fn take_draft(shape: Shape, state: &mut [u8], table: &[u8], boundary: u64)
    requires { Sized shape state.old × Spare 24 shape.c (part state.old (start_of shape at_draft) (table_length shape.c)) × Table shape.c table.now }
    ensures { state.new ≡ drafted_in shape state.old (table_at shape.c table.now 0) boundary }
{
    let draft = places::places_of(shape).draft;
    let number = entries::count(table);
    views::renew_table(shape, state, draft, table, 4, number);
    places::put_boundary(state, boundary);
    places::put_status(state, status::CROSS_SHARD);
}

// ---- with F+1 votes

// The mask of all groups.
fn all_groups(s: u64) -> u16
    requires { s ≤ 8 }
    ensures { result ≡ 2 ^ s - 1 }
{
    (1 << s) - 1
}

// Kind 18 with the boundary to the leader of each other group in the mask: says where the last ends.
fn tell_all(shape: Shape, state: &[u8], out: &mut [u8], boundary: u64, mask: u16) -> usize
    requires { Sized shape state.now × (length_for shape.s 18 0 * length (others_in shape state.now mask) ≤ length out.old) }
    ensures { let b = state.now in
        (result ≡ length (flat (leader_bytes shape b 18 boundary []) (others_in shape b mask)))
        × (out.new ≡ splice out.old 0 (flat (leader_bytes shape b 18 boundary []) (others_in shape b mask))) }
{
    let asking = Asking {
        kind: kind::VERIFY_REQUEST,
        number: boundary,
    };
    handler::tell_leaders(shape, state, out, asking, mask, &state[0..0])
}

// The rebuilt log becomes the draft, and the leaders of all other groups are asked for what they have from its boundary on.
fn ask_all(
    shape: Shape,
    state: &mut [u8],
    message: &[u8],
    cast: Cast,
    table: &[u8],
    boundary: u64,
    out: &mut [u8],
) -> Answer
    requires { Brought shape state.old message.now cast.view cast × Table shape.c table.now }
    ensures { let b = state.old in
        let came = came_to shape b message.now cast.view cast.entering in
        let votes = votes_in shape b message.now cast in
        left result state.new out.new ≡ closes shape b out.old (asks_all shape came votes (table_at shape.c table.now 0) boundary) }
{
    let mask = all_groups(shape.s);
    let count = handler::count_others(shape, state, mask) as usize;
    if out.len() < kinds::length_for(shape.s, kind::VERIFY_REQUEST, 0) * count {
        return Err(Refusal::NoRoom);
    }
    keep_vote(shape, state, message, cast);
    take_draft(shape, state, table, boundary);
    let sent = tell_all(shape, state, out, boundary, mask);
    Ok(sent)
}

// Rebuilds the log into the lent table, so that nothing of the state changes before the log is known to fit. One group starts with it at once, more
// verify it first.
fn conclude(
    shape: Shape,
    state: &mut [u8],
    message: &[u8],
    cast: Cast,
    out: &mut [u8],
    slots: &mut [u16],
    table: &mut [u8],
) -> Answer
    requires { Brought shape state.old message.now cast.view cast × (length table.old ≡ 4 + 24 * shape.c) }
    ensures { let b = state.old in
        let came = came_to shape b message.now cast.view cast.entering in
        left result state.new out.new ≡ closes shape b out.old (concludes shape came (votes_in shape b message.now cast)) }
{
    let rebuilt = rebuild::rebuild(shape, state, message, cast, slots, table);
    let boundary = rebuilt.ok_or(Refusal::Full)?;
    if shape.s == 1 {
        return changes::start_leading(shape, state, cast.view, message, table, out);
    }
    ask_all(shape, state, message, cast, table, boundary, out)
}

// ---- kind 8

// Kind 8: a replica's second vote is refused; else it is kept, in a greater view after that is entered. With F+1 votes the log is rebuilt.
pub fn on_vote(
    shape: Shape,
    state: &mut [u8],
    m: Message,
    message: &[u8],
    out: &mut [u8],
    slots: &mut [u16],
    table: &mut [u8],
) -> Answer
    requires { Ready shape state.old m message.now × (length table.old ≡ 4 + 24 * shape.c) }
    ensures { left result state.new out.new ≡ handled 8 on_vote shape m state.old message.now out.old }
{
    let Message::Vote(h, normal, sync) = m else {
        return Err(Refusal::Malformed(0));
    };
    let cast = Cast {
        view: h.view,
        sender: h.from_replica as u64,
        normal,
        sync,
        at: kinds::entries_at(shape.s, kind::VOTE),
        entering: places::get_view(state) < h.view,
    };
    if is_second(shape, state, cast) {
        return Err(Refusal::NothingToDo);
    }
    let at = cast.at;
    let number = octets::get32(message, at) as usize;
    if (shape.c as usize) < number {
        return Err(Refusal::Full);
    }
    if count_with(shape, state, cast) < GroupSize(shape.n).majority() {
        keep_vote(shape, state, message, cast);
        return Ok(0);
    }
    conclude(shape, state, message, cast, out, slots, table)
}
