// The votes of a view change, where they stand in the state and in the message: what each says, which of them count, and which is best.
#![tactic(auto)]

ghost use Rattle.std.specs.Prelude.{◌≡◌, true, List, ℕ, ◌<◌, get_or};
ghost use Rattle.std.proofs.Math.Option.{none};
ghost use Rattle.rules.specs.Choice.{is_some};
ghost use Rattle.rules.specs.Rebuild.{top_from};
ghost use Rattle.ballots.specs.Ballots.{votes_in, vote_of, counts_at, Sent, Given, Tells, Lists, better_of, BestTo};

use rules::Shape;

// The vote that a message brings: its gView, its sender, last normal gView and sync point, where the count of its entries stands, and whether it enters a
// greater view.
#[derive(Clone, Copy)]
pub struct Cast {
    pub view: u32,
    pub sender: u64,
    pub normal: u64,
    pub sync: u64,
    pub at: usize,
    pub entering: bool,
}

// Of a replica's vote: its last normal gView and sync point.
#[derive(Clone, Copy)]
struct Ballot {
    normal: u64,
    sync: u64,
}

// The replica whose vote has the largest sync point so far, and that sync point.
#[derive(Clone, Copy)]
pub struct Best {
    pub replica: u64,
    pub sync: u64,
}

// ---- one vote

// What the vote of replica r says, where there is one: the sender's stands in the message, and where the step enters a greater view only the own one is
// kept beside it.
fn ballot_of(shape: Shape, state: &[u8], cast: Cast, r: u64) -> Option<Ballot>
    requires { Sent shape state.now cast × (r < shape.n) }
    ensures { (msg : List ℕ) → Tells (get_or (votes_in shape state.now msg cast) r none) result }
{
    if r == cast.sender {
        return Some(Ballot {
            normal: cast.normal,
            sync: cast.sync,
        });
    }
    if cast.entering {
        if r != places::get_replica(state) {
            return None;
        }
        return Some(Ballot {
            normal: places::get_normal(state) as u64,
            sync: places::get_sync(state),
        });
    }
    if !places::vote_flag(shape, state, r) {
        return None;
    }
    Some(Ballot {
        normal: places::vote_normal(shape, state, r) as u64,
        sync: places::vote_sync(shape, state, r),
    })
}

// Whether the vote of replica r counts: there is one, with the greatest last normal gView.
pub fn counted(shape: Shape, state: &[u8], cast: Cast, top: u64, r: u64) -> bool
    requires { Sent shape state.now cast × (r < shape.n) }
    ensures { (msg : List ℕ) → result ≡ counts_at top (get_or (votes_in shape state.now msg cast) r none) }
{
    ballot_of(shape, state, cast, r).is_some_and(|ballot| ballot.normal == top)
}

// ---- the votes that count

// The greatest last normal gView.
pub fn top_normal(shape: Shape, state: &[u8], cast: Cast) -> u64
    requires { Sent shape state.now cast }
    ensures { (msg : List ℕ) → result ≡ top_from 0 (votes_in shape state.now msg cast) }
{
    let mut top: u64 = 0;
    for r in 0..shape.n {
        if let Some(ballot) = ballot_of(shape, state, cast, r) {
            top = top.max(ballot.normal);
        }
    }
    top
}

// The better of the best vote so far and that of replica r, which has to count and to have a larger sync point: so the lowest replica wins a tie.
fn better(top: u64, best: Option<Best>, r: u64, ballot: Option<Ballot>) -> Option<Best>
    ensures { result ≡ better_of top best r ballot }
{
    let Some(ballot) = ballot else {
        return best;
    };
    let most = best.map_or(0, |best| best.sync);
    if (ballot.normal == top) & (most < ballot.sync) {
        return Some(Best {
            replica: r,
            sync: ballot.sync,
        });
    }
    best
}

// The vote that gives the prefix; none where no sync point is above 0.
pub fn best_vote(shape: Shape, state: &[u8], cast: Cast, top: u64) -> Option<Best>
    requires { Sent shape state.now cast }
    ensures { (msg : List ℕ) → BestTo shape.n (votes_in shape state.now msg cast) top shape.n result }
{
    let mut best: Option<Best> = None;
    for r in 0..shape.n {
        best = better(top, best, r, ballot_of(shape, state, cast, r));
    }
    best
}

// ---- the logs of the votes

// The log of replica r's vote, where it stands: a count, and entries behind it.
pub fn log_of<'a>(shape: Shape, state: &'a [u8], message: &'a [u8], cast: Cast, r: u64) -> &'a [u8]
    requires { Given shape state.now message.now cast × (r < shape.n) × (is_some (get_or (votes_in shape state.now message.now cast) r none) ≡ true) }
    ensures { Lists shape.c (vote_of (get_or (votes_in shape state.now message.now cast) r none)).log result.now }
{
    if r == cast.sender {
        let at = cast.at;
        let end = message.len();
        return &message[at..end];
    }
    let places = places::places_of(shape);
    if cast.entering {
        let at = places.log;
        let end = at + places.table;
        return &state[at..end];
    }
    let at = places::vote_place(shape, r) + 13;
    let end = at + places.table;
    &state[at..end]
}
