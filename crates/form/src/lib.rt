// Whether sections of bytes are the form of what is in them: flags 0 or 1, zeros behind an unset flag, counts within the room, free places zero.
#![tactic(auto)]

ghost use Rattle.std.specs.Prelude.{◌≡◌, ◌+◌, ◌*◌, ◌≤◌, length};
ghost use Rattle.octets.specs.Bytes.{part, zeros, flat, items};
ghost use Rattle.rules.specs.Choice.{same};
ghost use Rattle.rules.specs.Image.{table_length, vote_length, reply_length, point_bytes, table_bytes, vote_bytes, reply_bytes, point_at, table_at, vote_at, reply_at};
ghost use Rattle.places.specs.Layout.{Sized};
ghost use Rattle.form.specs.Sections.{tables_form};

use rules::Shape;

// Whether the head's five spare bytes are zero: every other byte of it is part of a number.
fn head_form(b: &[u8]) -> bool
    requires { 48 ≤ length b.now }
    ensures { result ≡ zeros (part b.now 3 5) }
{
    octets::all_zero(b, 3, 5)
}

// Whether the point at `at` has its form.
pub fn point_form(b: &[u8], at: usize) -> bool
    requires { at + 9 ≤ length b.now }
    ensures { result ≡ same (point_bytes (point_at b.now at)) (part b.now at 9) }
{
    match octets::get8(b, at) {
        0 => octets::all_zero(b, at + 1, 8),
        flag => flag == 1,
    }
}

// Whether the table at `at`, with room for c entries, has its form.
fn table_form(b: &[u8], at: usize, c: usize) -> bool
    requires { (at + table_length c ≤ length b.now) × (c ≤ 4096) }
    ensures { result ≡ same (table_bytes c (table_at c b.now at)) (part b.now at (table_length c)) }
{
    let end = at + (4 + 24 * c);
    entries::table_good(&b[at..end], c)
}

// Whether the vote at `at` has its form. Votes and replies have functions of their own, for each promises the bytes of its kind.
fn vote_form(b: &[u8], at: usize, c: usize) -> bool
    requires { (at + vote_length c ≤ length b.now) × (c ≤ 4096) }
    ensures { result ≡ same (vote_bytes c (vote_at c b.now at)) (part b.now at (vote_length c)) }
{
    match octets::get8(b, at) {
        0 => octets::all_zero(b, at + 1, 4 + (8 + (4 + 24 * c))),
        1 => table_form(b, at + 13, c),
        _ => false,
    }
}

// Whether the reply at `at` has its form.
fn reply_form(b: &[u8], at: usize, c: usize) -> bool
    requires { (at + reply_length c ≤ length b.now) × (c ≤ 4096) }
    ensures { result ≡ same (reply_bytes c (reply_at c b.now at)) (part b.now at (reply_length c)) }
{
    match octets::get8(b, at) {
        0 => octets::all_zero(b, at + 1, 4 + 24 * c),
        1 => table_form(b, at + 1, c),
        _ => false,
    }
}

// Whether each of n votes has its form.
fn votes_form(b: &[u8], n: usize, c: usize) -> bool
    requires { (length b.now ≡ vote_length c * n) × (c ≤ 4096) }
    ensures { result ≡ same (flat (vote_bytes c) (items (vote_at c b.now) (vote_length c) 0 n)) b.now }
{
    let size = 13 + (4 + 24 * c);
    let mut fine = true;
    for i in 0..n {
        fine = fine & vote_form(b, size * i, c);
    }
    fine
}

// Whether each of s replies has its form.
fn replies_form(b: &[u8], s: usize, c: usize) -> bool
    requires { (length b.now ≡ reply_length c * s) × (c ≤ 4096) }
    ensures { result ≡ same (flat (reply_bytes c) (items (reply_at c b.now) (reply_length c) 0 s)) b.now }
{
    let size = 1 + (4 + 24 * c);
    let mut fine = true;
    for i in 0..s {
        fine = fine & reply_form(b, size * i, c);
    }
    fine
}

// Whether the head and every section of entries has its form. gVec is not looked at: it is numbers alone, and any bytes are such. The
// points heard and the notes are tested where it is tested what they say.
pub fn tables_form(shape: Shape, state: &[u8]) -> bool
    requires { Sized shape state.now }
    ensures { result ≡ tables_form shape state.now }
{
    let layout = places::places_of(shape);
    let n = shape.n as usize;
    let s = shape.s as usize;
    let c = shape.c as usize;
    let head_fine = head_form(state);
    let log_fine = table_form(state, layout.log, c);
    let early_fine = table_form(state, layout.early, c);
    let late_fine = table_form(state, layout.late, c);
    let votes_fine = votes_form(&state[layout.votes..layout.draft], n, c);
    let draft_fine = table_form(state, layout.draft, c);
    let replies_fine = replies_form(&state[layout.replies..layout.end], s, c);
    let tables_fine = log_fine & (early_fine & late_fine);
    head_fine & (tables_fine & (votes_fine & (draft_fine & replies_fine)))
}
