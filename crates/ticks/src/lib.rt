// Kind 23, the tick: early entries that are due are released to the log, each with its reply, and the group hears of them.
#![tactic(auto)]

ghost use Rattle.std.specs.Prelude.{◌≡◌, [], ◌∷◌, ◌+◌, ◌-◌, ◌*◌, ◌<◌, ◌≤◌, min, length};
ghost use Rattle.octets.specs.Bytes.{splice};
ghost use Rattle.rules.specs.Choice.{leading};
ghost use Rattle.rules.specs.Wire.{wire_bytes};
ghost use Rattle.rules.specs.Read.{length_for};
ghost use Rattle.rules.specs.State.{agreed};
ghost use Rattle.rules.specs.Image.{image, state_of};
ghost use Rattle.rules.specs.Step.{send_out, send_leader, send_followers, unplaced_reply, leader_releases, follower_releases, on_tick};
ghost use Rattle.rules.specs.Early.{due_of};
ghost use Rattle.rules.specs.Bytes.{left, closes};
ghost use Rattle.rules.specs.Entry.{entry_of};
ghost use Rattle.handler.specs.Handler.{Ready, handled};
ghost use Rattle.releases.specs.Releasing.{Releasing};
ghost use Rattle.ticks.specs.Released.{settled_at, Released};

use rules::{Answer, Message, Refusal, Shape, kind};

// ---- what is sent

// Writes at `at` that entry n of the log is placed: its position, and the digest of the log up to it. Says where the message ends.
fn tell_placed(shape: Shape, state: &[u8], out: &mut [u8], at: usize, n: usize, sum: u64) -> usize
    requires { Releasing shape state.now × (n < length (state_of shape state.now).logged.log) × (at + length_for shape.s 5 1 ≤ length out.old) }
    ensures { let st = state_of shape state.now in
        (result ≡ at + length_for shape.s 5 1)
        × (out.new ≡ splice out.old at (wire_bytes (send_out st 5 (1 ∷ (n + 1) ∷ sum ∷ []) (entry_of st.logged.log n)))) }
{
    let from = places::log_place(shape, n);
    let m = Message::FastReply(
        handler::headed(state, kind::FAST_REPLY, rules::OUTSIDE, 1),
        1,
        (n + 1) as u64,
        sum,
    );
    handler::tell(shape, state, out, at, m, &state[from..from + 24])
}

// Writes from the start of the outgoing buffer on that the first early entry is not placed, with the digest of the log. Says where the message ends.
fn tell_unplaced(shape: Shape, state: &[u8], out: &mut [u8]) -> usize
    requires { Releasing shape state.now × (0 < length (state_of shape state.now).waiting.early) × (length_for shape.s 5 1 ≤ length out.old) }
    ensures { let st = state_of shape state.now in
        (result ≡ length_for shape.s 5 1)
        × (out.new ≡ splice out.old 0 (wire_bytes (unplaced_reply st (entry_of st.waiting.early 0)))) }
{
    let from = releases::early_place(shape, 0);
    let sum = releases::log_digest(shape, state);
    let m = Message::FastReply(
        handler::headed(state, kind::FAST_REPLY, rules::OUTSIDE, 1),
        0,
        0,
        sum,
    );
    handler::tell(shape, state, out, 0, m, &state[from..from + 24])
}

// Writes the log at `at`, to all followers. Says where the message ends.
fn tell_log(shape: Shape, state: &[u8], out: &mut [u8], at: usize) -> usize
    requires { Releasing shape state.now × (at + length_for shape.s 4 (length (state_of shape state.now).logged.log) ≤ length out.old) }
    ensures { let st = state_of shape state.now in
        (result ≡ at + length_for shape.s 4 (length st.logged.log))
        × (out.new ≡ splice out.old at (wire_bytes (send_followers shape st 4 st.logged.log))) }
{
    let from = places::places_of(shape).log + 4;
    let end = from + 24 * places::log_length(shape, state);
    let others = group::others(shape.n, places::get_replica(state));
    let m = Message::ReplicaSync(handler::headed(
        state,
        kind::REPLICA_SYNC,
        octets::get8(state, 0),
        others,
    ));
    handler::tell(shape, state, out, at, m, &state[from..end])
}

// Writes the sync point at `at`, to the leader of the own group. Says where the message ends.
fn tell_status(shape: Shape, state: &[u8], out: &mut [u8], at: usize) -> usize
    requires { Releasing shape state.now × (at + length_for shape.s 10 0 ≤ length out.old) }
    ensures { let st = state_of shape state.now in
        (result ≡ at + length_for shape.s 10 0)
        × (out.new ≡ splice out.old at (wire_bytes (send_leader shape st 10 st.site.group (st.logged.sync ∷ []) []))) }
{
    let view = places::view_at(shape, state, places::get_group(state));
    let leader = group::only(view as u64 % shape.n);
    let header = handler::headed(state, kind::SYNC_STATUS, octets::get8(state, 0), leader);
    let m = Message::SyncStatus(header, places::get_sync(state));
    handler::tell(shape, state, out, at, m, &state[0..0])
}

// ---- the release

// Releases the first k entries due by a time, each with its reply, from the start of the outgoing buffer on: one after the other to the log, then all at
// once out of early and the notes. Says where the last reply ends. n is the log's length.
fn release(
    shape: Shape,
    state: &mut [u8],
    out: &mut [u8],
    time: u64,
    n: usize,
    k: usize,
    slots: &mut [u16],
) -> usize
    requires { let st = state_of shape state.old in
        Releasing shape state.old × (n ≡ length st.logged.log) × (k ≤ length (due_of time st.waiting.early)) × (n + k ≤ shape.c)
        × (length_for shape.s 5 1 * k ≤ length out.old) }
    ensures { Released shape state.old out.old time k result state.new out.new }
{
    if k == 0 {
        return 0;
    }
    let mut sum = releases::log_digest(shape, state);
    let mut at = 0;
    for i in 0..k {
        sum = releases::release_one(shape, state, n, i, sum);
        at = tell_placed(shape, state, out, at, n + i, sum);
    }
    releases::leave_released(shape, state, n, k, slots);
    at
}

// Of a run, as many entries as a log of n entries still holds.
fn fitting(c: usize, n: usize, run: usize) -> usize
    requires { n ≤ c }
    ensures { result ≡ min run (c - n) }
{
    run.min(c - n)
}

// How long k replies are.
fn replies_length(s: u64, k: usize) -> usize
    requires { (s ≤ 8) × (k ≤ 4096) }
    ensures { (result ≡ length_for s 5 1 * k) × (result ≤ 425984) }
{
    kinds::length_for(s, kind::FAST_REPLY, 1) * k
}

// Puts the clock and the sync point.
fn settle(shape: Shape, state: &mut [u8], time: u64, sync: u64)
    requires { Releasing shape state.old }
    ensures { state.new ≡ image shape (settled_at (state_of shape state.old) time sync) }
{
    places::put_clock(state, time);
    places::put_sync(state, sync);
}

// ---- the tick

// A leader whose run is empty tells of the first due entry, where there is one.
fn leader_waits(
    shape: Shape,
    state: &mut [u8],
    out: &mut [u8],
    time: u64,
    n: usize,
    due: usize,
) -> Answer
    requires { let st = state_of shape state.old in
        Releasing shape state.old × (n ≡ length st.logged.log) × (due ≡ length (due_of time st.waiting.early)) }
    ensures { let st = state_of shape state.old in
        let due = due_of time st.waiting.early in
        left result state.new out.new ≡ closes shape state.old out.old (leader_releases shape st time due []) }
{
    if due == 0 {
        settle(shape, state, time, n as u64);
        return Ok(0);
    }
    if out.len() < kinds::length_for(shape.s, kind::FAST_REPLY, 1) {
        return Err(Refusal::NoRoom);
    }
    let end = tell_unplaced(shape, state, out);
    settle(shape, state, time, n as u64);
    Ok(end)
}

// A leader releases the run that is agreed, as far as the log holds it, and sends the log to its followers.
fn leader_releases(
    shape: Shape,
    state: &mut [u8],
    out: &mut [u8],
    time: u64,
    slots: &mut [u16],
) -> Answer
    requires { Releasing shape state.old }
    ensures { let st = state_of shape state.old in
        let due = due_of time st.waiting.early in
        let run = leading (agreed shape st.waiting.notes) due in
        left result state.new out.new ≡ closes shape state.old out.old (leader_releases shape st time due run) }
{
    let n = places::log_length(shape, state);
    let due = releases::due_count(shape, state, time);
    let run = releases::run_length(shape, state, time, due, slots);
    if run == 0 {
        return leader_waits(shape, state, out, time, n, due);
    }
    if shape.c as usize <= n {
        return Err(Refusal::Full);
    }
    let k = fitting(shape.c as usize, n, run);
    if out.len()
        < replies_length(shape.s, k) + kinds::length_for(shape.s, kind::REPLICA_SYNC, n + k)
    {
        return Err(Refusal::NoRoom);
    }
    let at = release(shape, state, out, time, n, k, slots);
    let end = tell_log(shape, state, out, at);
    settle(shape, state, time, (n + k) as u64);
    Ok(end)
}

// A follower releases all that is due, as far as the log holds it, and tells the leader its sync point.
fn follower_releases(
    shape: Shape,
    state: &mut [u8],
    out: &mut [u8],
    time: u64,
    slots: &mut [u16],
) -> Answer
    requires { Releasing shape state.old }
    ensures { let st = state_of shape state.old in
        let due = due_of time st.waiting.early in
        left result state.new out.new ≡ closes shape state.old out.old (follower_releases shape st time due) }
{
    let n = places::log_length(shape, state);
    let due = releases::due_count(shape, state, time);
    if (shape.c as usize <= n) & (due != 0) {
        return Err(Refusal::Full);
    }
    let k = fitting(shape.c as usize, n, due);
    if out.len() < replies_length(shape.s, k) + kinds::length_for(shape.s, kind::SYNC_STATUS, 0) {
        return Err(Refusal::NoRoom);
    }
    let at = release(shape, state, out, time, n, k, slots);
    let end = tell_status(shape, state, out, at);
    let sync = places::get_sync(state);
    settle(shape, state, time, sync);
    Ok(end)
}

// Kind 23: time passes, and what is due by it is released.
pub fn on_tick(
    shape: Shape,
    state: &mut [u8],
    m: Message,
    message: &[u8],
    out: &mut [u8],
    slots: &mut [u16],
) -> Answer
    requires { Ready shape state.old m message.now }
    ensures { left result state.new out.new ≡ handled 23 on_tick shape m state.old message.now out.old }
{
    let Message::Tick(_, time) = m else {
        return Err(Refusal::Malformed(0));
    };
    if time < places::get_clock(state) {
        return Err(Refusal::NothingToDo);
    }
    if handler::leads(shape, state) {
        return leader_releases(shape, state, out, time, slots);
    }
    follower_releases(shape, state, out, time, slots)
}
