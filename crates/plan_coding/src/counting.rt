// The values that a plan gives to a counter's variables (P7), a byte each, behind an assignment's other
// bytes: by j below `most`, then k below `spare`, 1 where more than j of the first j + k + 1 nodes of
// kind 1 have a border. A row begins at the j nodes that are counted already, and counts on: one node a
// byte. Assumes nothing.
ghost use Rattle.std.specs.Prelude.{◌≡◌, ℕ, ◌+◌, ◌*◌, ◌≤◌, ◌<◌, length, get_or};
ghost use Rattle.std.proofs.lemmas.List.Edits.{sets};
ghost use Rattle.spec.specs.Lists.{up_to, each};
ghost use Rattle.spec.specs.Read.{max_nodes};
ghost use Rattle.spec.specs.Instance.{instance_of, under};
ghost use Rattle.spec.specs.Plan.{plan_of};
ghost use Rattle.spec.specs.Cap.{cap_values};
ghost use Rattle.spec.specs.Formula.{own_variables, variables};
ghost use Rattle.spec.specs.Held.{held, held_cap};
ghost use Rattle.tables.specs.Ready.{Counted};
ghost use Rattle.plan_coding.specs.Encoded.{set_below, count_bytes};

use layout::counter::{Counter, counter_of, list_free};
use layout::numbering::own_variables;
use model::{Book, Counts, MAX_NODES};

// How many of the first n + 1 listed nodes have a border, where `set` of the first n do.
fn with_next(set: usize, n: usize, nodes: &[usize; MAX_NODES], plan: &[u8]) -> usize
    requires { (n < max_nodes) × (get_or nodes.now n 0 < length plan.now) × (set ≡ set_below nodes.now plan.now n) }
    ensures { result ≡ set_below nodes.now plan.now (n + 1) }
{
    set + usize::from(plan[nodes[n]] == 1)
}

// Writes the bytes of one j from `at` on; `set` of the first j listed nodes have a border.
fn write_row(
    at: usize,
    spare: usize,
    j: usize,
    set: usize,
    nodes: &[usize; MAX_NODES],
    plan: &[u8],
    out: &mut [u8],
)
    requires { (j + spare ≤ max_nodes) × ((n : ℕ) → n < j + spare → get_or nodes.now n 0 < length plan.now)
        × (set ≡ set_below nodes.now plan.now j) × (at + spare ≤ length out.old) }
    ensures { out.new ≡ sets out.old at (count_bytes nodes.now plan.now spare j) }
{
    let mut n = set;
    for (k, byte) in out[at..at + spare].iter_mut().enumerate() {
        n = with_next(n, j + k, nodes, plan);
        *byte = u8::from(j < n);
    }
}

// Writes the rows one behind the other, from `first` on.
fn write_rows(c: Counter, first: usize, nodes: &[usize; MAX_NODES], plan: &[u8], out: &mut [u8])
    requires { (c.most + c.spare ≤ max_nodes) × ((n : ℕ) → n < c.most + c.spare → get_or nodes.now n 0 < length plan.now)
        × (first + c.most * c.spare ≤ length out.old) }
    ensures { out.new ≡ sets out.old first
        (each (up_to c.most) (count_bytes nodes.now plan.now c.spare)) }
{
    let mut at = first;
    let mut set = 0;
    for j in 0..c.most {
        write_row(at, c.spare, j, set, nodes, plan, out);
        set = with_next(set, j, nodes, plan);
        at += c.spare;
    }
}

// Writes the values of a cap's variables, which follow all others.
pub fn write_counter(b: Book, counts: Counts, cap: Option<usize>, plan: &[u8], out: &mut [u8])
    requires { Counted b counts × (b.node_count ≤ length plan.now)
        × (variables (under (held_cap cap) (instance_of (held b))) ≤ length out.old) }
    ensures { out.new ≡ sets out.old (own_variables (instance_of (held b)))
        (cap_values (under (held_cap cap) (instance_of (held b))) (plan_of (instance_of (held b)) plan.now)) }
{
    let mut nodes = [0usize; MAX_NODES];
    list_free(b, &mut nodes);
    let c = counter_of(b, cap);
    let first = own_variables(b, counts);
    write_rows(c, first, &nodes, plan, out);
}
