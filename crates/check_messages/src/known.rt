// Known answers: FNV-1a at 64 bits by the published vectors and past 64 bytes, the sizes that follow from n, and the commit rule.
use scripts::Row;

// A hundred bytes, and how many the first of two parts has.
const HUNDRED: &[u8] =
    b"chongo was here!\nchongo was here!\nchongo was here!\nchongo was here!\nchongo was here!\nchongo was here";

const FRONT: usize = 51;

// The digest of the text that stands in the check's name, behind "digest of ".
fn named(name: &str) -> Option<u64> {
    let text = name.strip_prefix("digest of ")?;
    Some(digest::digest_of(text.as_bytes()))
}

// The digest of the hundred bytes in two parts.
fn run_on() -> Option<u64> {
    let (front, back) = HUNDRED.split_at_checked(FRONT)?;
    Some(digest::digest_on(digest::digest_of(front), back))
}

// The commit point of replica 0 as the leader of five: 4, 6 and 2 heard, the last not.
fn some_heard(logged: u64, before: u64) -> u64 {
    let mut heard = [0; 45];
    heard[9] = 1;
    heard[10] = 4;
    heard[18] = 1;
    heard[19] = 6;
    heard[27] = 1;
    heard[28] = 2;
    group::commit_point(5, 0, logged, &heard, before)
}

// The commit point of replica 0 as the leader of three: none heard.
fn none_heard(logged: u64, before: u64) -> u64 {
    group::commit_point(3, 0, logged, &[0; 27], before)
}

// What a row asks.
pub fn ask(row: &Row<'_>) -> Option<u64> {
    let [first, second, ..] = row.numbers;
    match row.asks {
        'd' => named(row.name),
        'n' => Some(digest::digest_of(b"")),
        'l' => Some(digest::digest_of(HUNDRED)),
        'p' => run_on(),
        'm' => Some(rules::GroupSize(first).majority()),
        'r' => Some(rules::GroupSize(first).recovery()),
        'h' => Some(some_heard(first, second)),
        'c' => Some(none_heard(first, second)),
        _ => None,
    }
}
