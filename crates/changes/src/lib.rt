// Entering a view and starting one: the handlers of kinds 7 and 9, and what the handlers of other kinds share with them.
#![tactic(auto)]

ghost use Rattle.std.specs.Prelude.{◌≡◌, ◌+◌, ◌*◌, ◌≤◌, ◌<◌, length};
ghost use Rattle.octets.specs.Bytes.{num, splice};
ghost use Rattle.rules.specs.Wire.{numbers_of};
ghost use Rattle.rules.specs.Image.{table_at, image, state_of};
ghost use Rattle.rules.specs.Step.{on_change_view, on_start_view};
ghost use Rattle.rules.specs.Bytes.{left, closes};
ghost use Rattle.entries.specs.Table.{Table};
ghost use Rattle.places.specs.Layout.{Sized, Stands};
ghost use Rattle.handler.specs.Handler.{Ready, handled};
ghost use Rattle.handler.specs.Sending.{message_bytes};
ghost use Rattle.views.specs.Views.{views_of};
ghost use Rattle.changes.specs.Changes.{leads_with, entered_by, led_by, log_in, vote_in, start_in};

use rules::{Answer, Message, Refusal, Shape, kind, status};

// ---- entering a view

// Enters the view: status 2, no boundary, empty tables; a leader keeps its own vote.
pub fn enter(shape: Shape, state: &mut [u8], view: u32, leads: bool, message: &[u8])
    requires { Stands shape (state_of shape state.old) state.old × (16 + 4 * shape.s ≤ length message.now) }
    ensures { state.new
        ≡ image shape (entered_by shape (state_of shape state.old) view (views_of shape message.now) leads) }
{
    views::empty_tables(shape, state);
    views::take_view(shape, state, view, message);
    places::put_status(state, status::VIEW_CHANGE);
    places::put_boundary(state, 0);
    if leads {
        views::keep_own_vote(shape, state);
    }
}

// Whether the own replica leads its group by the gVec that stands in the message.
pub fn leads_by(shape: Shape, state: &[u8], message: &[u8]) -> bool
    requires { Stands shape (state_of shape state.now) state.now × (16 + 4 * shape.s ≤ length message.now) }
    ensures { result ≡ leads_with shape (state_of shape state.now) (views_of shape message.now) }
{
    let own = places::get_group(state);
    let view = octets::get32(message, 16 + 4 * own as usize);
    group::leads(shape.n, view, places::get_replica(state))
}

// ---- what is sent

// Writes a message with the log, lent as it stands, first into the outgoing buffer, and says where it ends.
fn tell_log(shape: Shape, state: &[u8], out: &mut [u8], m: Message) -> usize
    requires { Sized shape state.now
        × (24 + 4 * shape.s + 8 * length (numbers_of m) + 24 * length (state_of shape state.now).logged.log ≤ length out.old) }
    ensures { let b = state.now in
        let bytes = message_bytes shape b m (log_in shape b) in
        (result ≡ length bytes) × (out.new ≡ splice out.old 0 bytes) }
{
    let start = places::log_place(shape, 0);
    let end = start + 24 * places::log_length(shape, state);
    handler::tell(shape, state, out, 0, m, &state[start..end])
}

// Kind 8 to the leader of the own group: last normal gView, sync point and log.
fn tell_vote(shape: Shape, state: &[u8], out: &mut [u8]) -> usize
    requires { Sized shape state.now × (num state.now 0 1 < shape.s)
        × (40 + 4 * shape.s + 24 * length (state_of shape state.now).logged.log ≤ length out.old) }
    ensures { let b = state.now in
        let bytes = message_bytes shape b (vote_in shape b) (log_in shape b) in
        (result ≡ length bytes) × (out.new ≡ splice out.old 0 bytes) }
{
    let own = octets::get8(state, 0);
    let leader = places::view_at(shape, state, own as u64) as u64 % shape.n;
    let h = handler::headed(state, kind::VOTE, own, group::only(leader));
    let normal = places::get_normal(state) as u64;
    let m = Message::Vote(h, normal, places::get_sync(state));
    tell_log(shape, state, out, m)
}

// Kind 9 to all followers: the log.
fn tell_start(shape: Shape, state: &[u8], out: &mut [u8]) -> usize
    requires { Sized shape state.now × (num state.now 1 1 < shape.n)
        × (24 + 4 * shape.s + 24 * length (state_of shape state.now).logged.log ≤ length out.old) }
    ensures { let b = state.now in
        let bytes = message_bytes shape b (start_in shape b) (log_in shape b) in
        (result ≡ length bytes) × (out.new ≡ splice out.old 0 bytes) }
{
    let own = octets::get8(state, 0);
    let mask = group::others(shape.n, places::get_replica(state));
    let h = handler::headed(state, kind::START_VIEW, own, mask);
    let m = Message::StartView(h);
    tell_log(shape, state, out, m)
}

// ---- kind 7

// Kind 7: the view is entered. A leader keeps its own vote; others send theirs to it, and are refused first where it has no room.
pub fn on_change_view(
    shape: Shape,
    state: &mut [u8],
    m: Message,
    message: &[u8],
    out: &mut [u8],
) -> Answer
    requires { Ready shape state.old m message.now }
    ensures { left result state.new out.new
        ≡ handled 7 on_change_view shape m state.old message.now out.old }
{
    let Message::ChangeView(h) = m else {
        return Err(Refusal::Malformed(0));
    };
    let view = h.view;
    if leads_by(shape, state, message) {
        enter(shape, state, view, true, message);
        return Ok(0);
    }
    let count = places::log_length(shape, state);
    if out.len() < kinds::length_for(shape.s, kind::VOTE, count) {
        return Err(Refusal::NoRoom);
    }
    enter(shape, state, view, false, message);
    let sent = tell_vote(shape, state, out);
    Ok(sent)
}

// ---- starting a view

// Kind 9: the view starts with the log that the leader sent.
pub fn on_start_view(
    shape: Shape,
    state: &mut [u8],
    m: Message,
    message: &[u8],
    out: &mut [u8],
) -> Answer
    requires { Ready shape state.old m message.now }
    ensures { left result state.new out.new
        ≡ handled 9 on_start_view shape m state.old message.now out.old }
{
    let Message::StartView(h) = m else {
        return Err(Refusal::Malformed(0));
    };
    let view = h.view;
    let at = kinds::entries_at(shape.s, kind::START_VIEW);
    let number = octets::get32(message, at) as usize;
    if (shape.c as usize) < number {
        return Err(Refusal::Full);
    }
    views::begin(shape, state, view, message, message, at + 4, number);
    Ok(0)
}

// The leader starts the view with the log in the table `draft`, and sends it to all followers.
pub fn start_leading(
    shape: Shape,
    state: &mut [u8],
    view: u32,
    message: &[u8],
    draft: &[u8],
    out: &mut [u8],
) -> Answer
    requires { Stands shape (state_of shape state.old) state.old × (16 + 4 * shape.s ≤ length message.now) × Table shape.c draft.now }
    ensures { let st = state_of shape state.old in
        left result state.new out.new
        ≡ closes shape state.old out.old
        (led_by shape st view (views_of shape message.now) (table_at shape.c draft.now 0)) }
{
    let number = entries::count(draft);
    if out.len() < kinds::length_for(shape.s, kind::START_VIEW, number) {
        return Err(Refusal::NoRoom);
    }
    views::begin(shape, state, view, message, draft, 4, number);
    let sent = tell_start(shape, state, out);
    Ok(sent)
}
