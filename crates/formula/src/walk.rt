// The formula of a book: one walk over its families, in their order, and what a cap adds, that measures,
// writes and judges (`clauses::Walk`). Families B, C, D, E, G and H go by train and interval through the same two
// loops, by what they are told of each. Assumes nothing.
ghost use Rattle.std.specs.Prelude.{◌≡◌, ◌<◌, ℕ};
ghost use Rattle.spec.specs.Lists.{up_to, each};
ghost use Rattle.spec.specs.Instance.{instance_of, under, call_at};
ghost use Rattle.spec.specs.Formula.{family_f, family_i, formula, words_of};
ghost use Rattle.spec.specs.Held.{held, held_cap};
ghost use Rattle.clauses.specs.Walked.{Passes, Walks, start};
ghost use Rattle.layout.specs.Blocks.{intervals_most, block_room};
ghost use Rattle.formula.specs.Families.{Family, from_by, to_by, block_clauses, family_clauses, call_runs, call_clauses, pairs_behind};

use crate::counting::cap_clauses;
use crate::families::{TrainPart, clauses_i, family_a};
use clauses::{Tally, Walk};
use layout::numbering::first_claim;
use model::Call;
use network::calls::{call_at, calls_of};
use std::ops::Range;
use tables::places::{in_window, served_at_departure};
use tables::ready::FormulaTables;

// The whole formula under a cap, or without one: what the walk passed, and the output. A family that goes by train and interval says
// in which intervals, for a train that departs in d, of n intervals, and which clauses: of p, the train's part, in the interval whose
// first variable is x.
pub fn walk_formula(t: &FormulaTables, cap: Option<usize>, values: &[u8], out: &mut [i32]) -> Tally
    ensures { Walks values.now
        (words_of (formula (under (held_cap cap) (instance_of (held t.now.book)))))
        start out.old result out.new }
{
    let mut walk = Walk::new(values, out);
    family_a(t.book, &mut walk);
    by_train(t, |d, _| 0..d, |p, x, w| p.clauses_b(x, w), &mut walk);
    by_train(t, |d, n| d..n, |p, x, w| p.clauses_c(x, w), &mut walk);
    by_train(t, |d, _| d..d + 1, |p, x, w| p.clauses_d(x, w), &mut walk);
    by_train(t, |d, n| d..n - 1, |p, x, w| p.clauses_e(x, w), &mut walk);
    family_f(t, &mut walk);
    by_train(t, |_, n| 0..n, |p, x, w| p.clauses_g(x, w), &mut walk);
    by_train(t, |_, n| 0..n, |p, x, w| p.clauses_h(x, w), &mut walk);
    family_i(t, &mut walk);
    cap_clauses(t.book, t.counts, cap, &mut walk);
    walk.tally
}

// A family that goes by train and interval: the trains in order, and of each the intervals that `span` answers by its departure and
// their number; `clauses` passes the clauses of one, by the train's part and the interval's first variable.
fn by_train<S: Fn(usize, usize) -> Range<usize>, F: Fn(&TrainPart, usize, &mut Walk)>(
    t: &FormulaTables,
    span: S,
    clauses: F,
    walk: &mut Walk,
)
    ghost family: { Family }
    requires span_asks { (d : ℕ) (all : ℕ) → d < all → all < intervals_most → S.pre span d all }
    requires span_tells { (d : ℕ) (all : ℕ) (r : _) → S.post span d all r → (r.start ≡ from_by family d) × (r.end ≡ to_by family d all) }
    requires clauses_ask { (part : _) (base : ℕ) (w : _) → base < block_room → F.pre clauses part base w }
    requires clauses_pass { (part : _) (base : ℕ) (w : _) (w' : _) → F.post clauses part base w tt w'
        → Passes (words_of (block_clauses (instance_of (held part.now.book.now)) family part.now.first.train base)) w.now w'.now }
    ensures { Passes (words_of (family_clauses (instance_of (held t.now.book)) family)) walk.old walk.new }
{
    for train in 0..t.book.train_count {
        let part = TrainPart::new(t, train);
        for interval in span(t.book.trains[train].departure, t.book.intervals) {
            clauses(&part, part.base(interval), walk);
        }
    }
}

// F: the literals of a call's clause: by time, the runs whose end serves it.
fn call_runs(part: &TrainPart, number: usize, c: Call, walk: &mut Walk)
    requires { c ≡ call_at (held part.now.book.now) part.now.first.train number }
    ensures { Passes (call_runs (instance_of (held part.now.book.now)) part.now.first.train number) walk.old walk.new }
{
    let departure = part.book.trains[part.first.train].departure;
    for interval in departure..part.book.intervals {
        if in_window(c, interval + 1) {
            part.servers(part.base(interval), number, c, walk);
        }
    }
}

// F: the clause of a call, or none where the train's given place serves it at its departure.
fn call_clause(part: &TrainPart, number: usize, walk: &mut Walk)
    ensures { Passes (words_of (call_clauses (instance_of (held part.now.book.now)) part.now.first.train number)) walk.old walk.new }
{
    let train = part.first.train;
    let c = call_at(*part.book, train, number);
    if !served_at_departure(*part.book, c, part.book.trains[train]) {
        call_runs(part, number, c, walk);
        walk.close();
    }
}

// F: the calls of a train, in file order.
fn train_calls(part: &TrainPart, walk: &mut Walk)
    ensures { Passes
        (words_of (each (up_to ((instance_of (held part.now.book.now)).calls part.now.first.train))
        λ c. call_clauses (instance_of (held part.now.book.now)) part.now.first.train c))
        walk.old walk.new }
{
    for number in 0..calls_of(*part.book, part.first.train) {
        call_clause(part, number, walk);
    }
}

// F: the calls of every train.
fn family_f(t: &FormulaTables, walk: &mut Walk)
    ensures { Passes (words_of (family_f (instance_of (held t.now.book)))) walk.old walk.new }
{
    for train in 0..t.book.train_count {
        train_calls(&TrainPart::new(t, train), walk);
    }
}

// I: a train and each behind it, in an interval.
fn pairs_behind(t: &FormulaTables, interval: usize, train: usize, walk: &mut Walk)
    requires { (train < t.now.book.train_count) × (interval < t.now.book.intervals) }
    ensures { Passes (words_of (pairs_behind (instance_of (held t.now.book)) interval train)) walk.old walk.new }
{
    let lower = first_claim(t.book, t.counts, train, interval);
    for j in train + 1..t.book.train_count {
        let higher = first_claim(t.book, t.counts, j, interval);
        clauses_i(lower, higher, t.book.segment_count, walk);
    }
}

// I: the pairs of trains in an interval.
fn interval_pairs(t: &FormulaTables, interval: usize, walk: &mut Walk)
    requires { interval < t.now.book.intervals }
    ensures { Passes (words_of (each (up_to (instance_of (held t.now.book)).trains)
        λ i. pairs_behind (instance_of (held t.now.book)) interval i))
        walk.old walk.new }
{
    for i in 0..t.book.train_count {
        pairs_behind(t, interval, i, walk);
    }
}

// I: in every interval.
fn family_i(t: &FormulaTables, walk: &mut Walk)
    ensures { Passes (words_of (family_i (instance_of (held t.now.book)))) walk.old walk.new }
{
    for interval in 0..t.book.intervals {
        interval_pairs(t, interval, walk);
    }
}
