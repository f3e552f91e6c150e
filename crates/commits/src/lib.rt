// The handlers of sync status (kind 10) and commit (kind 11): each changes the state's bytes in place and writes its message to the outgoing buffer.
#![tactic(auto)]

ghost use Rattle.std.specs.Prelude.{◌≡◌, [], ◌+◌, ◌*◌, ◌<◌, ◌≤◌, MatchOption, length, set};
ghost use Rattle.std.proofs.Math.Option.{none, some};
ghost use Rattle.octets.specs.Bytes.{num, splice};
ghost use Rattle.rules.specs.Group as sets;
ghost use Rattle.rules.specs.Read.{length_for};
ghost use Rattle.rules.specs.Commit.{commit_point};
ghost use Rattle.rules.specs.Image.{point_at, image, state_of, at_heard};
ghost use Rattle.rules.specs.Step.{stale, committed, on_commit, on_sync_status};
ghost use Rattle.rules.specs.Bytes.{left};
ghost use Rattle.rules.specs.declared.Message.TheVariants as cases;
ghost use Rattle.places.specs.Layout.{start_of, Sized, Stands};
ghost use Rattle.handler.specs.Handler.{Ready, handled};
ghost use Rattle.handler.specs.Sending.{message_bytes, headed_in};

use rules::{Answer, Message, Refusal, Shape, kind};

// Kind 11: the leader's commit point is taken over where it is above the own one and not above the own sync point.
pub fn on_commit(
    shape: Shape,
    state: &mut [u8],
    m: Message,
    message: &[u8],
    out: &mut [u8],
) -> Answer
    requires { Ready shape state.old m message.now }
    ensures { left result state.new out.new
        ≡ handled 11 on_commit shape m state.old message.now out.old }
{
    let Message::Commit(_, point) = m else {
        return Err(Refusal::Malformed(0));
    };
    if point <= places::get_commit(state) {
        return Err(Refusal::NothingToDo);
    }
    if places::get_sync(state) < point {
        return Err(Refusal::NothingToDo);
    }
    places::put_commit(state, point);
    Ok(0)
}

// Kind 10, once nothing refuses it: keeps the point that a follower reports, raises the commit point by it, and gives the commit point.
pub fn keep_status(shape: Shape, state: &mut [u8], from: u64, point: u64, len: u64) -> u64
    requires { Stands shape (state_of shape state.old) state.old × (from < shape.n) }
    ensures { let st = state_of shape state.old in
        let heard = set st.heard from (some point) in
        (result ≡ commit_point shape.n st.site.replica len heard st.logged.commit)
        × (state.new ≡ image shape (committed st result heard)) }
{
    places::put_heard(shape, state, from, point);
    let layout = places::places_of(shape);
    let own = places::get_replica(state);
    let before = places::get_commit(state);
    let commit = group::commit_point(shape.n, own, len, &state[layout.heard..layout.log], before);
    places::put_commit(state, commit);
    commit
}

// The point that a replica reported, where it has reported one.
fn reported(shape: Shape, state: &[u8], from: u64) -> Option<u64>
    requires { Sized shape state.now × (from < shape.n) }
    ensures { let heard = point_at state.now (start_of shape at_heard + 9 * from) in
        MatchOption result (heard ≡ none) (λ last. heard ≡ some last) }
{
    let heard = places::heard_flag(shape, state, from);
    let last = places::heard_point(shape, state, from);
    heard.then_some(last)
}

// Whether the point is not above what this replica reported. One that has reported nothing is not taken as having reported 0.
fn is_stale(shape: Shape, state: &[u8], from: u64, point: u64) -> bool
    requires { Sized shape state.now × (from < shape.n) }
    ensures { result ≡ stale point (point_at state.now (start_of shape at_heard + 9 * from)) }
{
    reported(shape, state, from).is_some_and(|last| point <= last)
}

// Writes the commit point as kind 11 to one replica of the own group, first into the outgoing buffer, and says where it ends.
fn tell_commit(shape: Shape, state: &[u8], out: &mut [u8], to: u64, commit: u64) -> usize
    requires { Sized shape state.now × (to < 8) × (length_for shape.s 11 0 ≤ length out.old) }
    ensures { let b = state.now in
        let bytes = message_bytes shape b (cases.Commit (headed_in b 11 (num b 0 1) (sets.only to)) commit) [] in
        (result ≡ length bytes) × (out.new ≡ splice out.old 0 bytes) }
{
    let own = octets::get8(state, 0);
    let mask = group::only(to);
    let h = handler::headed(state, kind::COMMIT, own, mask);
    let m = Message::Commit(h, commit);
    handler::tell(shape, state, out, 0, m, &state[0..0])
}

// Kind 10: what a follower reports is kept where it is news and within the own log; the commit point may rise, and is told to the sender always.
pub fn on_sync_status(
    shape: Shape,
    state: &mut [u8],
    m: Message,
    message: &[u8],
    out: &mut [u8],
) -> Answer
    requires { Ready shape state.old m message.now }
    ensures { left result state.new out.new
        ≡ handled 10 on_sync_status shape m state.old message.now out.old }
{
    let Message::SyncStatus(h, point) = m else {
        return Err(Refusal::Malformed(0));
    };
    let from = h.from_replica as u64;
    if is_stale(shape, state, from, point) {
        return Err(Refusal::NothingToDo);
    }
    let len = places::log_length(shape, state) as u64;
    if len < point {
        return Err(Refusal::NothingToDo);
    }
    if out.len() < kinds::length_for(shape.s, kind::COMMIT, 0) {
        return Err(Refusal::NoRoom);
    }
    let commit = keep_status(shape, state, from, point, len);
    let sent = tell_commit(shape, state, out, from, commit);
    Ok(sent)
}
