// The families of the formula, each over the walk of `clauses`: one function a family and interval of a train, whatever the walk
// does with its words. An interval's variables lie in a block from its first variable, `base`, on. A `TrainPart` has what they ask
// for, of one train, and one method a family. Assumes nothing.
ghost use Rattle.std.specs.Prelude.{◌≡◌, Bool, ◌∷◌, ◌++◌, map, ℕ, ◌+◌, ◌*◌, ◌≤◌, ◌<◌, length, get_or};
ghost use Rattle.spec.specs.Lists.{up_to, each, only, one};
ghost use Rattle.spec.specs.Book.{segment_of};
ghost use Rattle.spec.specs.Read.{max_runs};
ghost use Rattle.spec.specs.Instance.{instance_of, call_at};
ghost use Rattle.spec.specs.Formula.{is, not', width, base, clauses_b, clauses_c, clauses_i, clauses_d, clauses_e, servers_f, clauses_g, clauses_h, family_a, words_of};
ghost use Rattle.spec.specs.Held.{held};
ghost use Rattle.listing.specs.Listed.{run_segments, train_bytes};
ghost use Rattle.clauses.specs.Walked.{Passes, literal_room};
ghost use Rattle.tables.specs.Placed.{size_at, run_held};
ghost use Rattle.tables.specs.Tables.{Passed};
ghost use Rattle.tables.specs.Ready.{RunsHeld, ChainsHeld, MeetsReady};
ghost use Rattle.layout.specs.Blocks.{BlockHeld, BlockOf, block_room};
ghost use Rattle.formula.specs.Chained.{Chained};

use clauses::Walk;
use layout::blocks::{Block, block_at, train_block};
use layout::numbering::{claims_from, gone_variable, next_interval};
use listing::TRAIN_BYTES;
use model::{Book, Call};
use network::calls::goal;
use network::track::{denies_border, forces_border};
use tables::chains::TRAIN_CHAINS;
use tables::places::{end_of, is_given, may_leave, serves, size_of, start_of};
use tables::ready::FormulaTables;

// A: the borders that the nodes' kinds deny or force.
pub fn family_a(b: Book, walk: &mut Walk)
    requires { Passed b }
    ensures { Passes (words_of (family_a (instance_of (held b)))) walk.old walk.new }
{
    for node in 0..b.node_count {
        let kind = b.nodes[node];
        walk.unit_not_if(denies_border(kind), node);
        walk.unit_is_if(forces_border(kind), node);
    }
}

// B: before its departure a train has no run and is not gone.
pub fn clauses_b(base: usize, n: usize, walk: &mut Walk)
    requires { base + n + 1 < literal_room }
    ensures { Passes (words_of (clauses_b n base)) walk.old walk.new }
{
    walk.deny_all(base, n + 1);
}

// C: from its departure on a train has some run or is gone, and no two of these.
pub fn clauses_c(base: usize, n: usize, walk: &mut Walk)
    requires { (base + n + 1 < literal_room) × (n ≤ max_runs) }
    ensures { Passes (words_of (clauses_c n base)) walk.old walk.new }
{
    walk.some_of(base, n + 1);
    walk.no_two(base, n + 1);
}

// D: in the interval of its departure a train starts at its given place, and is not gone.
pub fn clauses_d(b: &Book, t: Block, runs: &[u8], walk: &mut Walk)
    requires { BlockHeld b.now t × RunsHeld (held b.now) t.train runs.now }
    ensures { Passes (words_of (clauses_d (instance_of (held b.now)) t.train t.base)) walk.old walk.new }
{
    let own = b.trains[t.train];
    for k in 0..t.runs {
        let given = is_given(own, runs, start_of(k), t.length);
        walk.unit_not_if(!given, t.base + k);
    }
    walk.unit_not(gone_variable(t.base, t.runs));
}

// E: the literals of the runs that may follow run r, of n, whose variables lie from `base` on: those that
// pass the test that the table chains.
fn followers(base: usize, n: usize, r: usize, chains: &[usize], walk: &mut Walk)
    requires { (base + n + 1 < literal_room) × (r < n) × (2 * n ≤ length chains.now)
        × ((f : ℕ → Bool) × Chained f n (get_or chains.now (2 * r) 0) chains.now) }
    ensures { (f : ℕ → Bool) → Chained f n (get_or chains.now (2 * r) 0) chains.now
        → Passes (each (up_to n) λ q. only (f q) (one (is (base + q)))) walk.old walk.new }
{
    let mut q = chains[2 * r];
    // no `for`: each run's entry says which run is the next
    while q < n {
        walk.affirm(base + q);
        q = chains[2 * q + 1];
    }
}

// E: run r of a block, and what may come after it in the next, from `after` on: the runs that pass the
// test that the table chains, and gone where `leaves` says that it may follow.
fn clause_e(t: Block, after: usize, r: usize, leaves: bool, chains: &[usize], walk: &mut Walk)
    requires { (t.base + t.runs + 1 < literal_room) × (after + t.runs + 1 < literal_room) × (r < t.runs) × (2 * t.runs ≤ length chains.now)
        × ((f : ℕ → Bool) × Chained f t.runs (get_or chains.now (2 * r) 0) chains.now) }
    ensures { (f : ℕ → Bool) → Chained f t.runs (get_or chains.now (2 * r) 0) chains.now
        → Passes (words_of (one (not' (t.base + r) ∷ ((each (up_to t.runs) λ q. only (f q) (one (is (after + q))))
        ++ only leaves (one (is (after + t.runs)))))))
        walk.old walk.new }
{
    walk.deny(t.base + r);
    followers(after, t.runs, r, chains, walk);
    walk.affirm_if(leaves, gone_variable(after, t.runs));
    walk.close();
}

// E: after its departure a train goes on from where it was, or is gone.
pub fn clauses_e(b: &Book, t: Block, runs: &[u8], chains: &[usize], walk: &mut Walk)
    requires { BlockHeld b.now t × RunsHeld (held b.now) t.train runs.now × ChainsHeld (held b.now) t.train chains.now }
    ensures { Passes (words_of (clauses_e (instance_of (held b.now)) t.train t.base
        (t.base + width (instance_of (held b.now)) t.train)))
        walk.old walk.new }
{
    let n = t.runs;
    let l = t.length;
    let after = next_interval(t.base, n, b.segment_count);
    let to = goal(*b, t.train);
    for r in 0..n {
        let leaves = may_leave(*b, t.train, to, runs, end_of(runs, r, l), l);
        clause_e(t, after, r, leaves, chains, walk);
    }
    walk.implies(gone_variable(t.base, n), gone_variable(after, n));
}

// F: the literals of the runs of a block that serve the train's call with a number, which is for the
// contract: it ties the call to it.
pub fn servers(b: &Book, t: Block, number: usize, c: Call, runs: &[u8], walk: &mut Walk)
    requires { BlockHeld b.now t × (c ≡ call_at (held b.now) t.train number) × RunsHeld (held b.now) t.train runs.now }
    ensures { Passes (servers_f (instance_of (held b.now)) t.train number t.base) walk.old walk.new }
{
    let l = t.length;
    for r in 0..t.runs {
        let served = serves(*b, c, runs, end_of(runs, r, l), l);
        walk.affirm_if(served, t.base + r);
    }
}

// G: run r of a block claims each segment of its path.
fn claims_of(t: Block, r: usize, runs: &[u8], walk: &mut Walk)
    requires { (t.base < block_room) × (t.runs ≤ max_runs) × (r < t.runs) × (length runs.now ≡ train_bytes) × (size_at runs.now r ≤ run_segments) }
    ensures { Passes (words_of (map (λ s. not' (t.base + r) ∷ one (is (t.base + (t.runs + 1 + s))))
        (map segment_of (run_held runs.now r))))
        walk.old walk.new }
{
    let claims = claims_from(t.base, t.runs);
    let at = start_of(r);
    let end = at + size_of(runs, r);
    for &d in &runs[at..end] {
        walk.implies(t.base + r, claims + usize::from(d) / 2);
    }
}

// G: each run of a block claims the segments of its path. The book is for the contract: the block is one of its.
pub fn clauses_g(b: &Book, t: Block, runs: &[u8], walk: &mut Walk)
    requires { BlockHeld b.now t × RunsHeld (held b.now) t.train runs.now }
    ensures { Passes (words_of (clauses_g (instance_of (held b.now)) t.train t.base)) walk.old walk.new }
{
    for r in 0..t.runs {
        claims_of(t, r, runs, walk);
    }
}

// H: the claims of segments that meet at a node without a border go together. `meets` holds node,
// first and second segment, three bytes each. The book is for the contract, as in G.
pub fn clauses_h(b: &Book, t: Block, meets: &[u8], walk: &mut Walk)
    requires { BlockHeld b.now t × MeetsReady b.now meets.now }
    ensures { Passes (words_of (clauses_h (instance_of (held b.now)) t.train t.base)) walk.old walk.new }
{
    let claims = claims_from(t.base, t.runs);
    for meet in meets.chunks_exact(3) {
        walk.implies_either(
            claims + usize::from(meet[1]),
            usize::from(meet[0]),
            claims + usize::from(meet[2]),
        );
    }
}

// I: two trains do not claim one segment in an interval. Their claims lie from `lower` and from
// `higher` on.
pub fn clauses_i(lower: usize, higher: usize, n: usize, walk: &mut Walk)
    requires { (lower + n < literal_room) × (higher + n < literal_room) }
    ensures { Passes (words_of (clauses_i n (λ s. lower + s) (λ s. higher + s))) walk.old walk.new }
{
    for s in 0..n {
        walk.not_both(lower + s, higher + s);
    }
}

// A train and its part of the tables: the block of its first interval, its runs, and their chains. What
// meets is the same for every train. The book is lent, since it is large.
#[derive(Clone, Copy)]
pub struct TrainPart<'a> {
    pub book: &'a Book,
    pub first: Block,
    pub runs: &'a [u8],
    pub chains: &'a [usize],
    pub meets: &'a [u8],
    pub ghost block: { BlockOf book.now first.train 0 first },
    pub ghost runs_held: { RunsHeld (held book.now) first.train runs.now },
    pub ghost chains_held: { ChainsHeld (held book.now) first.train chains.now },
    pub ghost meets_ready: { MeetsReady book.now meets.now },
}

impl<'a> TrainPart<'a> {
    // The part of a train.
    pub fn new(t: &'a FormulaTables, train: usize) -> TrainPart<'a>
        requires { train < t.now.book.train_count }
        ensures { (result.book.now ≡ t.now.book) × (result.first.train ≡ train) }
    {
        let runs = train * TRAIN_BYTES;
        let chains = train * TRAIN_CHAINS;
        TrainPart {
            book: &t.book,
            first: train_block(t.book, t.counts, train),
            runs: &t.runs[runs..runs + TRAIN_BYTES],
            chains: &t.chains[chains..chains + TRAIN_CHAINS],
            meets: t.meets,
        }
    }

    // The first variable of an interval.
    pub fn base(&self, interval: usize) -> usize
        requires { interval ≤ self.now.book.now.intervals }
        ensures { (result ≡ base (instance_of (held self.now.book.now)) self.now.first.train interval) × (result < block_room) }
    {
        block_at(*self.book, self.first, interval).base
    }

    // B, in an interval before the departure.
    pub fn clauses_b(&self, base: usize, walk: &mut Walk)
        requires { base < block_room }
        ensures { Passes
            (words_of (clauses_b ((instance_of (held self.now.book.now)).runs self.now.first.train) base))
            walk.old walk.new }
    {
        clauses_b(base, self.first.runs, walk);
    }

    // C, in an interval from the departure on.
    pub fn clauses_c(&self, base: usize, walk: &mut Walk)
        requires { base < block_room }
        ensures { Passes
            (words_of (clauses_c ((instance_of (held self.now.book.now)).runs self.now.first.train) base))
            walk.old walk.new }
    {
        clauses_c(base, self.first.runs, walk);
    }

    // D, in the interval of the departure.
    pub fn clauses_d(&self, base: usize, walk: &mut Walk)
        requires { base < block_room }
        ensures { Passes (words_of (clauses_d (instance_of (held self.now.book.now)) self.now.first.train base)) walk.old walk.new }
    {
        clauses_d(self.book, Block { base, ..self.first }, self.runs, walk);
    }

    // E, in an interval from the departure on that is not the last.
    pub fn clauses_e(&self, base: usize, walk: &mut Walk)
        requires { base < block_room }
        ensures { Passes (words_of (clauses_e (instance_of (held self.now.book.now)) self.now.first.train base
            (base + width (instance_of (held self.now.book.now)) self.now.first.train)))
            walk.old walk.new }
    {
        clauses_e(
            self.book,
            Block { base, ..self.first },
            self.runs,
            self.chains,
            walk,
        );
    }

    // F, the literals of an interval.
    pub fn servers(&self, base: usize, number: usize, c: Call, walk: &mut Walk)
        requires { (base < block_room) × (c ≡ call_at (held self.now.book.now) self.now.first.train number) }
        ensures { Passes (servers_f (instance_of (held self.now.book.now)) self.now.first.train number base) walk.old walk.new }
    {
        servers(
            self.book,
            Block { base, ..self.first },
            number,
            c,
            self.runs,
            walk,
        );
    }

    // G, in an interval.
    pub fn clauses_g(&self, base: usize, walk: &mut Walk)
        requires { base < block_room }
        ensures { Passes (words_of (clauses_g (instance_of (held self.now.book.now)) self.now.first.train base)) walk.old walk.new }
    {
        clauses_g(self.book, Block { base, ..self.first }, self.runs, walk);
    }

    // H, in an interval.
    pub fn clauses_h(&self, base: usize, walk: &mut Walk)
        requires { base < block_room }
        ensures { Passes (words_of (clauses_h (instance_of (held self.now.book.now)) self.now.first.train base)) walk.old walk.new }
    {
        clauses_h(self.book, Block { base, ..self.first }, self.meets, walk);
    }
}
