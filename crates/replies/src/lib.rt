// The handler of verify reply (kind 19): replies are kept until those of all other groups are there; then they are merged into the draft, and the
// view starts with it.
#![tactic(auto)]

ghost use Rattle.std.specs.Prelude.{◌≡◌, ◌+◌, ◌*◌, ◌≤◌, length};
ghost use Rattle.rules.specs.Image.{state_of};
ghost use Rattle.rules.specs.Step.{on_verify_reply};
ghost use Rattle.rules.specs.Bytes.{left, closes};
ghost use Rattle.places.specs.Layout.{Stands};
ghost use Rattle.handler.specs.Handler.{Ready, handled};
ghost use Rattle.merge.specs.Merged.{merged_with};
ghost use Rattle.views.specs.Views.{views_of};
ghost use Rattle.replies.specs.Replies.{starts_with};

use merge::Reply;
use rules::{Answer, Message, Refusal, Shape, kind};

// Merges the replies into the draft, that of the message among them, and starts the view with what this gives. The merge goes into a lent table, so
// that a draft that is too long, or that cannot be sent, leaves the state as it came.
fn start_merged(
    shape: Shape,
    state: &mut [u8],
    message: &[u8],
    reply: Reply,
    out: &mut [u8],
    slots: &mut [u16],
    table: &mut [u8],
) -> Answer
    requires { Stands shape (state_of shape state.old) state.old × (16 + 4 * shape.s ≤ length message.now) × (reply.at + 24 * reply.count ≤ length message.now)
        × (length table.old ≡ 4 + 24 * shape.c) }
    ensures { let b = state.old in
        let draft = merged_with shape b message.now reply in
        left result state.new out.new ≡ closes shape b out.old (starts_with shape b (views_of shape message.now) draft) }
{
    if !merge::merge(shape, state, message, reply, table, slots) {
        return Err(Refusal::Full);
    }
    let view = places::get_view(state);
    changes::start_leading(shape, state, view, message, table, out)
}

// Kind 19: a group's second reply is refused. With fewer than all other groups' replies this one is kept; the last of them starts the view.
pub fn on_verify_reply(
    shape: Shape,
    state: &mut [u8],
    m: Message,
    message: &[u8],
    out: &mut [u8],
    slots: &mut [u16],
    table: &mut [u8],
) -> Answer
    requires { Ready shape state.old m message.now × (length table.old ≡ 4 + 24 * shape.c) }
    ensures { left result state.new out.new ≡ handled 19 on_verify_reply shape m state.old message.now out.old }
{
    let Message::VerifyReply(h) = m else {
        return Err(Refusal::Malformed(0));
    };
    let from = h.from_group as u64;
    if places::reply_flag(shape, state, from) {
        return Err(Refusal::NothingToDo);
    }
    let at = kinds::entries_at(shape.s, kind::VERIFY_REPLY);
    let number = octets::get32(message, at) as usize;
    if (shape.c as usize) < number {
        return Err(Refusal::Full);
    }
    if places::held_replies(shape, state) + 1 < shape.s - 1 {
        views::keep_reply(shape, state, from, message, at + 4, number);
        return Ok(0);
    }
    let reply = Reply {
        from,
        at: at + 4,
        count: number,
    };
    start_merged(shape, state, message, reply, out, slots, table)
}
