// What a variable of the formula stands for. A caller counts variables from 1, as the formula's text
// does; the numbering, and what is called `at` here, counts from 0. Assumes nothing.
ghost use Rattle.std.specs.Prelude.{◌≡◌, ℕ, suc, ◌+◌, ◌≤◌, ◌<◌};
ghost use Rattle.std.proofs.Math.Option.{Option};
ghost use Rattle.spec.specs.Lists.{accepted};
ghost use Rattle.spec.specs.Instance.{instance_of, under};
ghost use Rattle.spec.specs.Formula.{width, first_var, base, own_variables};
ghost use Rattle.spec.specs.Held.{held, held_cap};
ghost use Rattle.spec.specs.Library.{meaning_of, ask_variable};
ghost use Rattle.tables.specs.Ready.{Counted};
ghost use Rattle.gentupag.specs.Answers.{variable_answer};

use crate::answers::{IS_BORDER, IS_CLAIM, IS_COUNT, IS_GONE, IS_RUN, NO_VARIABLE, Variable};
use layout::counter::{counter_of, list_free};
use layout::numbering::{
    base_from, claims_from, first_variable, gone_variable, next_interval, own_variables,
};
use listing::TABLE_BYTES;
use model::{Book, Counts, MAX_NODES};
use tables::preparing::prepare_runs;

// The answer for a variable of some kind.
fn stands_for(kind: usize, train: usize, interval: usize, item: usize) -> Variable
    ensures { result ≡ record { number = 0; detail = 0; kind = kind; train = train; interval = interval; item = item; count = 0 } }
{
    Variable {
        number: 0,
        detail: 0,
        kind,
        train,
        interval,
        item,
        count: 0,
    }
}

// What the variable `at` of a train's interval stands for, under every cap, where `first` is the interval's
// first variable: a run, gone, or the claim of a segment.
fn in_interval(
    b: Book,
    counts: Counts,
    train: usize,
    interval: usize,
    first: usize,
    at: usize,
) -> Variable
    requires { Counted b counts × (train < b.train_count) × (interval < b.intervals)
        × (first ≡ base (instance_of (held b)) train interval) × (first ≤ at) × (at < first + width (instance_of (held b)) train) }
    ensures { (k : Option ℕ) → result ≡ variable_answer (accepted (meaning_of (under k (instance_of (held b))) (suc at))) }
{
    let n = counts[train];
    let gone = gone_variable(first, n);
    if at < gone {
        return stands_for(IS_RUN, train, interval, at - first);
    }
    if at == gone {
        return stands_for(IS_GONE, train, interval, 0);
    }
    stands_for(IS_CLAIM, train, interval, at - claims_from(first, n))
}

// What the variable `at` of a train stands for, under every cap. The train has as many variables in each interval as lie
// before its second one.
fn in_train(b: Book, counts: Counts, train: usize, at: usize) -> Variable
    requires { Counted b counts × (train < b.train_count) × (first_var (instance_of (held b)) train ≤ at)
        × (at < first_var (instance_of (held b)) (train + 1)) }
    ensures { (k : Option ℕ) → result ≡ variable_answer (accepted (meaning_of (under k (instance_of (held b))) (suc at))) }
{
    let n = counts[train];
    let segments = b.segment_count;
    let first = first_variable(b, counts, train);
    let interval = (at - first) / next_interval(0, n, segments);
    let start = base_from(first, n, segments, interval);
    in_interval(b, counts, train, interval, start, at)
}

// What the variable `at` behind those of the trains stands for: the counter's lie by j, then by k, and say that
// of the first j + k + 1 nodes of kind 1 at least j + 1 are set.
fn in_counter(b: Book, counts: Counts, cap: Option<usize>, at: usize) -> Variable
    requires { Counted b counts × (own_variables (instance_of (held b)) ≤ at) }
    ensures { result ≡ variable_answer (accepted (meaning_of (under (held_cap cap) (instance_of (held b))) (suc at))) }
{
    let c = counter_of(b, cap);
    let spare = c.spare;
    let place = at - own_variables(b, counts);
    if c.most * spare <= place {
        return stands_for(NO_VARIABLE, 0, 0, 0);
    }
    let j = place / spare;
    let mut nodes = [0usize; MAX_NODES];
    list_free(b, &mut nodes);
    Variable {
        number: 0,
        detail: 0,
        kind: IS_COUNT,
        train: 0,
        interval: 0,
        item: nodes[j + place % spare],
        count: j + 1,
    }
}

// What variable v stands for, of a book whose runs were counted. The borders come first, then the
// trains: v belongs to the first train whose variables end behind it; the cap's counter is last.
fn variable_by(b: Book, counts: Counts, cap: Option<usize>, v: usize) -> Variable
    requires { Counted b counts }
    ensures { result ≡ variable_answer (accepted (meaning_of (under (held_cap cap) (instance_of (held b))) v)) }
{
    if v == 0 {
        return stands_for(NO_VARIABLE, 0, 0, 0);
    }
    let at = v - 1;
    if at < b.node_count {
        return stands_for(IS_BORDER, 0, 0, at);
    }
    for train in 0..b.train_count {
        if at < first_variable(b, counts, train + 1) {
            return in_train(b, counts, train, at);
        }
    }
    in_counter(b, counts, cap, at)
}

// What variable v of the book that the bytes hold stands for under a cap or none, v counted from 1.
pub fn variable_of(cap: Option<usize>, book: &[u8], v: usize) -> Variable
    ensures { result ≡ variable_answer (ask_variable (held_cap cap) book.now v) }
{
    let mut runs = [0u8; TABLE_BYTES];
    match prepare_runs(book, &mut runs) {
        Ok(read) => variable_by(read.book, read.counts, cap, v),
        Err(refusal) => Variable {
            number: refusal.number(),
            detail: refusal.detail(),
            kind: NO_VARIABLE,
            train: 0,
            interval: 0,
            item: 0,
            count: 0,
        },
    }
}
