// The end of the formula under a cap, P7: the clauses of its counter over the nodes of kind 1, by j up to
// `most`, then k below `spare`, over the walk of `clauses`. A counter that counts nothing has none.
// Assumes nothing.
ghost use Rattle.std.specs.Prelude.{◌≡◌, ◌+◌, ◌≤◌, ◌<◌, get_or};
ghost use Rattle.spec.specs.Lists.{one};
ghost use Rattle.spec.specs.Read.{max_nodes};
ghost use Rattle.spec.specs.Instance.{instance_of, under};
ghost use Rattle.spec.specs.Cap.{cap_clauses};
ghost use Rattle.spec.specs.Formula.{own_variables, words_of};
ghost use Rattle.spec.specs.Held.{held, held_cap};
ghost use Rattle.clauses.specs.Walked.{Passes, literal_room};
ghost use Rattle.layout.specs.Blocks.{first_most};
ghost use Rattle.tables.specs.Ready.{Counted};
ghost use Rattle.formula.specs.Counting.{variable_at, before_at, count_at, carry_at, row_clauses, counter_clauses, Listed};

use clauses::Walk;
use layout::counter::{Counter, counter_of, list_free};
use layout::numbering::own_variables;
use model::{Book, Counts, MAX_NODES};

// The clauses that a cap adds to the formula of a book.
pub fn cap_clauses(b: Book, counts: Counts, cap: Option<usize>, walk: &mut Walk)
    requires { Counted b counts }
    ensures { Passes
        (words_of (cap_clauses (under (held_cap cap) (instance_of (held b))) (own_variables (instance_of (held b)))))
        walk.old walk.new }
{
    let mut nodes = [0usize; MAX_NODES];
    list_free(b, &mut nodes);
    let first = own_variables(b, counts);
    let counting = Counting {
        counter: counter_of(b, cap),
        first,
        nodes: &nodes,
    };
    counting.all_rows(walk);
}

// A counter as its clauses are made: its first variable, and the nodes of kind 1, which stand at the start
// of `nodes`.
#[derive(Clone, Copy)]
struct Counting<'a> {
    counter: Counter,
    first: usize,
    nodes: &'a [usize],
    ghost start: { first ≤ first_most },
    ghost few: { counter.most + counter.spare ≤ max_nodes },
    ghost listed: { Listed counter nodes.now },
}

impl<'a> Counting<'a> {
    // The variable of j and k: more than j of the first j + k + 1 nodes of kind 1 are set.
    fn variable(&self, j: usize, k: usize) -> usize
        requires { (j ≤ self.now.counter.most) × (k < self.now.counter.spare) }
        ensures { (result ≡ variable_at self.now.counter self.now.first j k) × (result < literal_room) }
    {
        self.first + (j * self.counter.spare + k)
    }

    // The literal of the row before, that j were not counted yet: none in the first row.
    fn counted_before(&self, j: usize, k: usize, walk: &mut Walk)
        requires { (j ≤ self.now.counter.most) × (k < self.now.counter.spare) }
        ensures { Passes (before_at self.now.counter self.now.first j k) walk.old walk.new }
    {
        if 0 < j {
            walk.deny(self.variable(j - 1, k));
        }
    }

    // The clause that counts a node: where j of those before it are set and it is too, more than j are; of
    // the greatest j, it is not set.
    fn count_clause(&self, j: usize, k: usize, walk: &mut Walk)
        requires { (j ≤ self.now.counter.most) × (k < self.now.counter.spare) }
        ensures { Passes (words_of (one (count_at self.now.counter self.now.first (get_or self.now.nodes.now (j + k) 0) j k))) walk.old walk.new }
    {
        walk.deny(self.nodes[j + k]);
        self.counted_before(j, k, walk);
        walk.affirm_if(j < self.counter.most, self.variable(j, k));
        walk.close();
    }

    // The clause that keeps what was counted: none for the first k, nor of the greatest j.
    fn carry_clause(&self, j: usize, k: usize, walk: &mut Walk)
        requires { (j ≤ self.now.counter.most) × (k < self.now.counter.spare) }
        ensures { Passes (words_of (carry_at self.now.counter self.now.first j k)) walk.old walk.new }
    {
        if j < self.counter.most && 0 < k {
            walk.implies(self.variable(j, k - 1), self.variable(j, k));
        }
    }

    // The clauses of a row.
    fn row(&self, j: usize, walk: &mut Walk)
        requires { j ≤ self.now.counter.most }
        ensures { Passes (words_of (row_clauses self.now.counter self.now.first self.now.nodes.now j)) walk.old walk.new }
    {
        for k in 0..self.counter.spare {
            self.count_clause(j, k, walk);
            self.carry_clause(j, k, walk);
        }
    }

    // The clauses of all rows.
    fn all_rows(&self, walk: &mut Walk)
        ensures { Passes (words_of (counter_clauses self.now.counter self.now.first self.now.nodes.now)) walk.old walk.new }
    {
        for j in 0..self.counter.most + 1 {
            self.row(j, walk);
        }
    }
}
