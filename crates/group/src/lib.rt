// A group's sizes, masks of groups or of replicas, its leader, and its commit point.
#![tactic(auto)]

ghost use Rattle.std.specs.Prelude.{◌≡◌, ℕ, ◌+◌, ◌*◌, ◌%◌, ◌<◌, ◌≤◌, eqb, length};
ghost use Rattle.rules.specs.Choice.{count};
ghost use Rattle.rules.specs.Group as rule;
ghost use Rattle.rules.specs.Commit.{reached, commit_point};
ghost use Rattle.group.specs.Points.{points, reached_in, held};

// Whether n replicas in each of s groups are permitted.
pub fn sizes_fit(n: u64, s: u64) -> bool
    ensures { result ≡ rule.sizes_fit n s }
{
    rules::GroupSize(n).permitted() & ((1 <= s) & (s <= 8))
}

// Whether a shape is permitted.
pub fn shape_fits(shape: rules::Shape) -> bool
    ensures { result ≡ rule.shape_fits shape }
{
    sizes_fit(shape.n, shape.s) & ((16 <= shape.c) & (shape.c <= 4096))
}

// Whether a mask holds j. Past its 16 bits it holds nothing.
pub fn holds(mask: u16, j: u64) -> bool
    ensures { result ≡ rule.holds mask j }
{
    if 16 <= j {
        return false;
    }
    (mask as u64 >> j) % 2 == 1
}

// Whether a mask is not empty and names nothing past k.
pub fn some_of(mask: u16, k: u64) -> bool
    ensures { result ≡ rule.some_of mask k }
{
    if 16 <= k {
        return 0 < mask;
    }
    (0 < mask) & ((mask as u64) < 1 << k)
}

// The mask of replica r alone.
pub fn only(r: u64) -> u8
    requires { r < 8 }
    ensures { result ≡ rule.only r }
{
    1 << r
}

// The mask of every replica but r.
pub fn others(n: u64, r: u64) -> u8
    requires { (r < n) × (n ≤ 7) }
    ensures { result ≡ rule.others n r }
{
    only(n) - 1 - only(r)
}

// Whether a replica leads its group in a view.
pub fn leads(n: u64, view: u32, replica: u64) -> bool
    requires { 0 < n }
    ensures { result ≡ eqb replica (view % n) }
{
    replica == view as u64 % n
}

// What replicas have reached: the own replica by its log's length, and the others of the n by the points heard of them.
#[derive(Clone, Copy)]
struct Reached<'a> {
    n: u64,
    own: u64,
    len: u64,
    heard: &'a [u8],
    ghost whole: { 9 * n ≤ length heard.now },
}

impl<'a> Reached<'a> {
    // Whether replica i has reached c: the own log's length counts, a replica that was not heard does not.
    fn by(&self, c: u64, i: u64) -> bool
        requires { i < self.now.n }
        ensures { result ≡ reached_in self.now.own self.now.len self.now.heard.now c i }
    {
        if i == self.own {
            return c <= self.len;
        }
        let at = 9 * i as usize;
        if octets::get8(self.heard, at) == 0 {
            return false;
        }
        c <= octets::get64(self.heard, at + 1)
    }

    // How many of the n replicas have reached c.
    fn by_how_many(&self, c: u64) -> u64
        ensures { result ≡ count (reached self.now.own self.now.len (points self.now.n self.now.heard.now) c) self.now.n }
    {
        let mut sum: u64 = 0;
        for i in 0..self.n {
            if self.by(c, i) {
                sum += 1;
            }
        }
        sum
    }

    // Whether at least F+1 of the n replicas have reached c.
    fn by_majority(&self, c: u64) -> bool
        ensures { result ≡ held self.now.n self.now.own self.now.len (points self.now.n self.now.heard.now) c }
    {
        rules::GroupSize(self.n).majority() <= self.by_how_many(c)
    }
}

// The commit point: what F+1 have reached they have reached lower down too, so it is found by halves between the point before and
// the log's length. One count of the n replicas for each halving: linear in n, and halvings by the logarithm of what the log is ahead.
pub fn commit_point(n: u64, own: u64, len: u64, heard: &[u8], before: u64) -> u64
    requires { 9 * n ≤ length heard.now }
    ensures { result ≡ commit_point n own len (points n heard.now) before }
{
    let reached = Reached { n, own, len, heard };
    let mut low = before;
    let mut high = len;
    // By a while, since either end moves: no range counts that.
    while low < high {
        let middle = high - (high - low) / 2;
        if reached.by_majority(middle) {
            low = middle;
        } else {
            high = middle - 1;
        }
    }
    low
}
