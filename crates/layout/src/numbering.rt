// The numbering of the formula's variables, counted from 0: the nodes' borders, then by train and
// interval its runs, gone, and one claim a segment. So of an interval whose first variable is `base`, of
// a train with n runs, run r is at base + r, gone at base + n, and the claims lie from base + n + 1 on.
// The variables of a cap's counter follow all these.
// Assumes nothing.
ghost use Rattle.std.specs.Prelude.{◌≡◌, ◌+◌, ◌*◌, ◌^◌, ◌≤◌, ◌<◌};
ghost use Rattle.spec.specs.Read.{max_segments, max_runs};
ghost use Rattle.spec.specs.Instance.{instance_of, under};
ghost use Rattle.spec.specs.Formula.{first_var, base, claim_var, own_variables, variables};
ghost use Rattle.spec.specs.Held.{held, held_cap};
ghost use Rattle.tables.specs.Ready.{Counted};
ghost use Rattle.layout.specs.Blocks.{intervals_most, first_most, base_most, block_room, variables_most};

use crate::counter::counter_of;
use model::{Book, Counts};

// Gone's variable in the interval whose first variable is `base`, of a train with n runs.
pub fn gone_variable(base: usize, n: usize) -> usize
    requires { base + n < 2 ^ 64 }
    ensures { result ≡ base + n }
{
    base + n
}

// The first claim in the interval whose first variable is `base`, of a train with n runs: the claim of
// segment s is s behind it.
pub fn claims_from(base: usize, n: usize) -> usize
    requires { base + (n + 1) < 2 ^ 64 }
    ensures { result ≡ base + (n + 1) }
{
    gone_variable(base, n) + 1
}

// The first variable of the interval behind the one whose first variable is `base`.
pub fn next_interval(base: usize, n: usize, segments: usize) -> usize
    requires { base + (n + 1 + segments) < 2 ^ 64 }
    ensures { result ≡ base + (n + 1 + segments) }
{
    claims_from(base, n) + segments
}

// How many variables a train with n runs has in an interval: as many as lie before the next one.
fn width(n: usize, segments: usize) -> usize
    requires { n + 1 + segments < 2 ^ 64 }
    ensures { result ≡ n + 1 + segments }
{
    next_interval(0, n, segments)
}

// The first variable of an interval of a train with n runs, whose own first variable is `first`.
pub fn base_from(first: usize, n: usize, segments: usize, interval: usize) -> usize
    requires { (first ≤ first_most) × (n ≤ max_runs) × (segments ≤ max_segments) × (interval ≤ intervals_most) }
    ensures { (result ≡ first + interval * (n + 1 + segments)) × (result ≤ base_most) }
{
    first + interval * width(n, segments)
}

// The first variable of a train: those of the borders and of the trains before come before it.
pub fn first_variable(b: Book, counts: Counts, train: usize) -> usize
    requires { Counted b counts × (train ≤ b.train_count) }
    ensures { result ≡ first_var (instance_of (held b)) train }
{
    let mut first = b.node_count;
    for n in &counts[..train] {
        first = base_from(first, *n, b.segment_count, b.intervals);
    }
    first
}

// How many variables the formula has without a cap, and so where the cap's begin: those before a train
// behind the last.
pub fn own_variables(b: Book, counts: Counts) -> usize
    requires { Counted b counts }
    ensures { (result ≡ own_variables (instance_of (held b))) × (result ≤ first_most) }
{
    first_variable(b, counts, b.train_count)
}

// How many variables the formula has under a cap: the counter's follow all others.
pub fn variable_count(b: Book, counts: Counts, cap: Option<usize>) -> usize
    requires { Counted b counts }
    ensures { (result ≡ variables (under (held_cap cap) (instance_of (held b)))) × (result ≤ variables_most) }
{
    let c = counter_of(b, cap);
    own_variables(b, counts) + c.most * c.spare
}

// The first variable of a train's interval.
fn base_of(b: Book, counts: Counts, train: usize, interval: usize) -> usize
    requires { Counted b counts × (train < b.train_count) × (interval < b.intervals) }
    ensures { (result ≡ base (instance_of (held b)) train interval) × (result ≤ base_most) }
{
    base_from(
        first_variable(b, counts, train),
        counts[train],
        b.segment_count,
        interval,
    )
}

// The first of a train's claims in an interval.
pub fn first_claim(b: Book, counts: Counts, train: usize, interval: usize) -> usize
    requires { Counted b counts × (train < b.train_count) × (interval < b.intervals) }
    ensures { (result ≡ claim_var (instance_of (held b)) train interval 0) × (result < block_room) }
{
    claims_from(base_of(b, counts, train, interval), counts[train])
}
