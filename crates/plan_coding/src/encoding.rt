// A plan written as an assignment: a byte 0 or 1 a variable, each at its variable's number. A train
// claims exactly the sections that its run touches: the run's labels are marked, and a segment is
// claimed where its label is. A counter's values follow (`counting`). Assumes nothing.
ghost use Rattle.std.specs.Prelude.{◌≡◌, map, ℕ, ◌+◌, ◌≤◌, ◌<◌, length, get_or, eqb};
ghost use Rattle.std.proofs.lemmas.List.Edits.{sets};
ghost use Rattle.spec.specs.Lists.{up_to};
ghost use Rattle.spec.specs.Read.{max_segments};
ghost use Rattle.spec.specs.Instance.{instance_of, under};
ghost use Rattle.spec.specs.Plan as plans;
ghost use Rattle.spec.specs.Formula.{first_var, base, variables};
ghost use Rattle.spec.specs.Assignment as assignment;
ghost use Rattle.spec.specs.Entry.{overwrite};
ghost use Rattle.spec.specs.Held.{held, held_cap};
ghost use Rattle.layout.specs.Moves.{held_move};
ghost use Rattle.layout.specs.Blocks.{BlockOf};
ghost use Rattle.plan_rules.specs.Marks.{PlanLabelled, is_marked};
ghost use Rattle.plan_coding.specs.Encoded.{move_bytes, interval_bytes, train_bytes};

use crate::counting::write_counter;
use layout::blocks::{Block, block_at, train_block};
use layout::moves::{Move, is_gone, move_at};
use layout::numbering::{claims_from, gone_variable};
use model::{Book, Counts, MAX_SEGMENTS};
use plan_rules::apart::{mark, stretch_of};

// Writes a byte for each of the first n nodes: 1 where the plan has a border.
fn write_borders(n: usize, plan: &[u8], out: &mut [u8])
    requires { (n ≤ length plan.now) × (n ≤ length out.old) }
    ensures { out.new ≡ sets out.old 0 (map (λ k. plans.bit (eqb (get_or plan.now k 0) 1)) (up_to n)) }
{
    for (k, byte) in out[..n].iter_mut().enumerate() {
        *byte = u8::from(plan[k] == 1);
    }
}

// Whether a move is the run with a number.
fn is_run(m: Move, r: usize) -> bool
    ensures { result ≡ plans.runs (held_move m) (eqb r) }
{
    matches!(m, Move::Run(q) if q == r)
}

// Writes a byte for each of n runs, 1 for the one that the move is, and gone's byte, from `at` on, the
// interval's first variable.
fn write_move(at: usize, n: usize, m: Move, out: &mut [u8])
    requires { at + n + 1 ≤ length out.old }
    ensures { out.new ≡ sets out.old at (move_bytes (held_move m) n) }
{
    for (r, byte) in out[at..at + n].iter_mut().enumerate() {
        *byte = u8::from(is_run(m, r));
    }
    out[gone_variable(at, n)] = u8::from(is_gone(m));
}

// Writes a byte for each of the first n segments from `at` on: 1 where its label is marked.
fn write_marked(at: usize, n: usize, labels: &[usize], marks: &[u8; MAX_SEGMENTS], out: &mut [u8])
    requires { (n ≤ length labels.now) × ((s : ℕ) → s < n → get_or labels.now s 0 < max_segments) × (at + n ≤ length out.old) }
    ensures { out.new ≡ sets out.old at
        (map (λ s. plans.bit (is_marked marks.now (get_or labels.now s 0))) (up_to n)) }
{
    for (s, byte) in out[at..at + n].iter_mut().enumerate() {
        *byte = u8::from(marks[labels[s]] == 1);
    }
}

// Writes the bytes of a train's interval, whose variables are the block's.
fn write_interval(
    b: Book,
    counts: Counts,
    block: Block,
    interval: usize,
    runs: &[u8],
    labels: &[usize],
    plan: &[u8],
    out: &mut [u8],
)
    requires { PlanLabelled b counts runs.now labels.now plan.now × BlockOf b block.train interval block
        × (interval < b.intervals) × (base (instance_of (held b)) block.train (interval + 1) ≤ length out.old) }
    ensures { out.new ≡ sets out.old (base (instance_of (held b)) block.train interval)
        (interval_bytes (instance_of (held b)) (plans.plan_of (instance_of (held b)) plan.now) block.train interval) }
{
    let m = move_at(b, plan, block.train, interval);
    write_move(block.base, block.runs, m, out);
    let mut marks = [0u8; MAX_SEGMENTS];
    mark(stretch_of(m, runs, block.train), runs, labels, &mut marks);
    let claims = claims_from(block.base, block.runs);
    write_marked(claims, b.segment_count, labels, &marks, out);
}

// Writes the bytes of a train, those of each interval in its block.
fn write_train(
    b: Book,
    counts: Counts,
    train: usize,
    runs: &[u8],
    labels: &[usize],
    plan: &[u8],
    out: &mut [u8],
)
    requires { PlanLabelled b counts runs.now labels.now plan.now × (train < b.train_count)
        × (first_var (instance_of (held b)) (train + 1) ≤ length out.old) }
    ensures { out.new ≡ sets out.old (first_var (instance_of (held b)) train)
        (train_bytes (instance_of (held b)) (plans.plan_of (instance_of (held b)) plan.now) train) }
{
    let first = train_block(b, counts, train);
    for interval in 0..b.intervals {
        let block = block_at(b, first, interval);
        write_interval(b, counts, block, interval, runs, labels, plan, out);
    }
}

// Writes the assignment of a plan over the start of the output, for the formula under a cap.
pub fn encode(
    b: Book,
    counts: Counts,
    cap: Option<usize>,
    runs: &[u8],
    labels: &[usize],
    plan: &[u8],
    out: &mut [u8],
)
    requires { PlanLabelled b counts runs.now labels.now plan.now
        × (variables (under (held_cap cap) (instance_of (held b))) ≤ length out.old) }
    ensures { out.new ≡ overwrite out.old
        (assignment.encode (under (held_cap cap) (instance_of (held b))) (plans.plan_of (instance_of (held b)) plan.now)) }
{
    write_borders(b.node_count, plan, out);
    for train in 0..b.train_count {
        write_train(b, counts, train, runs, labels, plan, out);
    }
    write_counter(b, counts, cap, plan, out);
}
