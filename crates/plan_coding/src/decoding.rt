// The plan that an assignment decodes to, written into a lent slice: its border bytes, then by train and
// interval the number of the run whose variable is 1, 65535 where gone is 1, 65534 where neither is.
// Assumes nothing.
ghost use Rattle.std.specs.Prelude.{◌≡◌, ℕ, ◌+◌, ◌≤◌, ◌<◌, length, true, false, MatchOption};
ghost use Rattle.std.proofs.lemmas.List.Edits.{sets};
ghost use Rattle.spec.specs.Read.{max_runs};
ghost use Rattle.spec.specs.Instance.{instance_of};
ghost use Rattle.spec.specs.Plan.{move_at, plan_length};
ghost use Rattle.spec.specs.Assignment as assignment;
ghost use Rattle.spec.specs.Assignment.{assigned};
ghost use Rattle.spec.specs.Entry.{overwrite};
ghost use Rattle.spec.specs.Held.{held};
ghost use Rattle.tables.specs.Tables.{Passed};
ghost use Rattle.tables.specs.Ready.{Counted};
ghost use Rattle.layout.specs.Blocks.{block_room};
ghost use Rattle.plan_coding.specs.Decoded.{border_bytes, code_of, train_bytes};

use clauses::value;
use frames::bytes::put_pair;
use layout::blocks::{block_at, train_block};
use layout::moves::{ABSENT, GONE, move_place};
use layout::numbering::gone_variable;
use model::{Book, Counts};

// The first of n runs whose variable is 1; run r's variable is base + r.
fn first_run(base: usize, n: usize, values: &[u8]) -> Option<usize>
    requires { (base < block_room) × (n ≤ max_runs) }
    ensures { MatchOption result ((k : ℕ) → k < n → assigned values.now (base + k) ≡ false)
        (λ r. (r < n) × (assigned values.now (base + r) ≡ true) × ((k : ℕ) → k < r → assigned values.now (base + k) ≡ false)) }
{
    (0..n).find(|&r| value(values, base + r))
}

// The plan's number of an interval whose first variable is `base`, of a train with n runs: the run's,
// or the one for gone, or for absent.
fn code_of(base: usize, n: usize, values: &[u8]) -> usize
    requires { (base < block_room) × (n ≤ max_runs) }
    ensures { (result ≡ code_of values.now base n) × (result < 65536) }
{
    match first_run(base, n, values) {
        Some(r) => r,
        None if value(values, gone_variable(base, n)) => GONE,
        None => ABSENT,
    }
}

// Stores the numbers of a train's intervals, each in its place of the plan.
fn decode_train(b: Book, counts: Counts, train: usize, values: &[u8], out: &mut [u8])
    requires { Counted b counts × (train < b.train_count) × (plan_length (instance_of (held b)) ≤ length out.old) }
    ensures { out.new ≡ sets out.old (move_at (instance_of (held b)) train 0)
        (train_bytes (instance_of (held b)) values.now train) }
{
    let first = train_block(b, counts, train);
    for interval in 0..b.intervals {
        let block = block_at(b, first, interval);
        let code = code_of(block.base, block.runs, values);
        let at = move_place(b, train, interval);
        put_pair(out, at, code);
    }
}

// Stores the border bytes: node n's variable is n.
fn decode_borders(b: Book, values: &[u8], out: &mut [u8])
    requires { Passed b × (b.node_count ≤ length out.old) }
    ensures { out.new ≡ sets out.old 0 (border_bytes (instance_of (held b)) values.now) }
{
    for (node, byte) in out[..b.node_count].iter_mut().enumerate() {
        *byte = u8::from(value(values, node));
    }
}

// Writes the plan that the values decode to; behind its bytes the output is as it was.
pub fn decode(b: Book, counts: Counts, values: &[u8], out: &mut [u8])
    requires { Counted b counts × (plan_length (instance_of (held b)) ≤ length out.old) }
    ensures { out.new ≡ overwrite out.old (assignment.decode (instance_of (held b)) values.now) }
{
    decode_borders(b, values, out);
    for train in 0..b.train_count {
        decode_train(b, counts, train, values, out);
    }
}
