// A walk over clauses: each word, a literal or the 0 behind a clause, is counted, stored in the output
// where that has room, and judged by the values of the variables, a variable without a value being 0.
// With an empty output the walk measures and judges; where nobody asks for the judgement, no values
// are lent. Every family of the formula is one function over this walk. Assumes nothing.
#![tactic(auto)]

ghost use Rattle.std.specs.Prelude.{◌≡◌, ◌∷◌, map, ◌+◌, ◌*◌, ◌-◌, ◌<◌, ◌≤◌, length, set, pos};
ghost use Rattle.spec.specs.Lists.{up_to, range, each, only, one};
ghost use Rattle.spec.specs.Formula.{is, not', words_of};
ghost use Rattle.spec.specs.Assignment.{assigned};
ghost use Rattle.clauses.specs.Walked as walked;
ghost use Rattle.clauses.specs.Walked.{Begins, Passes, Judged, literal_room, paired_most, most};

// Where the counters stop; no formula is as long.
pub const MOST: usize = 1152921504606846976;

// What a walk has counted: the words and clauses that it has passed, whether the clause that it is in
// holds so far, and the number of the first clause that did not hold.
#[derive(Clone, Copy, Debug, PartialEq, Eq)]
pub struct Tally {
    pub words: usize,
    pub clauses: usize,
    pub holds: bool,
    pub wrong: Option<usize>,
}

// A walk: the values that it judges by, the output that it stores into, and its tally. It stays in
// registers where each function that it is lent to has one caller, or an instance for each, and so is
// inlined: else measuring takes 1.6 times as long.
#[derive(Drop)]
pub struct Walk<'a> {
    pub values: &'a [u8],
    pub out: &'a mut [i32],
    pub tally: Tally,
}

// A count with k more, as far as 2^60. `n.saturating_add(k).min(MOST)` is slower: 0.88 for 0.69 ns a literal of `some_of`.
#[tactic(auto, unfolding(crate::specs::Walked::more))]
fn more(n: usize, k: usize) -> usize
    requires { k ≤ most }
    ensures { result ≡ walked.more n k }
{
    if n <= MOST - k { n + k } else { MOST }
}

// Whether the variable has the value 1; one without a value has not.
pub fn value(values: &[u8], v: usize) -> bool
    ensures { result ≡ assigned values.now v }
{
    v < values.len() && values[v] == 1
}

// The literal of a variable, counted from 0, that affirms it.
fn positive(v: usize) -> i32
    requires { v < literal_room }
    ensures { result ≡ is v }
{
    (v + 1) as i32
}

// The literal that denies it.
fn negative(v: usize) -> i32
    requires { v < literal_room }
    ensures { result ≡ not' v }
{
    -((v + 1) as i32)
}

// Stores a word where the output has room for it.
fn store(out: &mut [i32], at: usize, word: i32)
    ensures { out.new ≡ set out.old at word }
{
    if at < out.len() {
        out[at] = word;
    }
}

// Stores the words of a clause, its literals and the 0 behind them: with one test, where the output has
// room for all.
fn store_clause<const N: usize>(out: &mut [i32], at: usize, literals: [i32; N])
    requires { N < most }
    ensures { out.new ≡ walked.stored at (words_of (one literals.entry)) out.old }
{
    if out.is_empty() {
        return;
    }
    if at < MOST - N && at + N < out.len() {
        // by `copy_from_slice` the clauses of two literals take 0.80 for 0.44 ns a word
        for i in 0..N {
            out[at + i] = literals[i];
        }
        out[at + N] = 0;
        return;
    }
    let mut next = at;
    for l in literals {
        store(out, next, l);
        next = more(next, 1);
    }
    store(out, next, 0);
}

// Stores the clauses "not both" of the variable at m, of n one behind the other, and each behind it,
// from `at` on, in an output that has room for them.
fn store_pairs(out: &mut [i32], at: usize, from: usize, m: usize, n: usize)
    requires { (from + n < literal_room) × (m < n) × (at + 3 * (n - m - 1) ≤ length out.old) × (at + 3 * (n - m - 1) ≤ most) }
    ensures { out.new ≡ walked.stored at (words_of (map (λ k. not' (from + m) ∷ one (not' (from + k))) (range (m + 1) n))) out.old }
{
    let first = negative(from + m);
    for k in m + 1..n {
        let i = at + 3 * (k - m - 1);
        out[i] = first;
        out[i + 1] = negative(from + k);
        out[i + 2] = 0;
    }
}

impl Tally {
    // Counts n more words, of which the last closes the clause.
    #[tactic(auto, unfolding(crate::specs::Walked::closed_by))]
    fn close(&mut self, n: usize)
        requires { n ≤ most }
        ensures { self.new ≡ walked.closed_by n self.old.holds self.old }
    {
        self.words = more(self.words, n);
        self.clauses = more(self.clauses, 1);
        if !self.holds && self.wrong.is_none() {
            self.wrong = Some(self.clauses);
        }
        self.holds = false;
    }

    // Counts k clauses of two literals that hold.
    fn skip_pairs(&mut self, k: usize)
        requires { k ≤ paired_most }
        ensures { self.new ≡ walked.skipped k self.old }
    {
        if k != 0 {
            self.words = more(self.words, 3 * k);
            self.clauses = more(self.clauses, k);
            self.holds = false;
        }
    }
}

impl<'a> Walk<'a> {
    // The walk before the first clause.
    #[tactic(auto, unfolding(crate::specs::Walked::start))]
    pub fn new(values: &'a [u8], out: &'a mut [i32]) -> Walk<'a>
        ensures { Begins values.now out.entry result }
    {
        Walk {
            values,
            out,
            tally: Tally {
                words: 0,
                clauses: 0,
                holds: false,
                wrong: None,
            },
        }
    }

    // Passes a literal, which is true or not.
    fn literal(&mut self, l: i32, is_true: bool)
        requires { Judged self.old.values.now (one l) is_true }
        ensures { Passes (one l) self.old self.new }
    {
        store(self.out, self.tally.words, l);
        self.tally.words = more(self.tally.words, 1);
        self.tally.holds |= is_true;
    }

    // Passes the literal that affirms a variable.
    pub fn affirm(&mut self, v: usize)
        requires { v < literal_room }
        ensures { Passes (one (is v)) self.old self.new }
    {
        let is_true = value(self.values, v);
        self.literal(positive(v), is_true);
    }

    // Passes the literal that denies a variable.
    pub fn deny(&mut self, v: usize)
        requires { v < literal_room }
        ensures { Passes (one (not' v)) self.old self.new }
    {
        let is_true = !value(self.values, v);
        self.literal(negative(v), is_true);
    }

    // Passes the 0 behind a clause.
    pub fn close(&mut self)
        ensures { Passes (one (pos 0)) self.old self.new }
    {
        store(self.out, self.tally.words, 0);
        self.tally.close(1);
    }

    // Passes a clause at once, one of whose literals is true or none.
    fn clause<const N: usize>(&mut self, literals: [i32; N], is_true: bool)
        requires { (N < most) × Judged self.old.values.now literals is_true }
        ensures { Passes (words_of (one literals.entry)) self.old self.new }
    {
        store_clause(self.out, self.tally.words, literals);
        self.tally.holds |= is_true;
        self.tally.close(N + 1);
    }

    // The clause that denies a variable.
    pub fn unit_not(&mut self, v: usize)
        requires { v < literal_room }
        ensures { Passes (words_of (one (one (not' v)))) self.old self.new }
    {
        let is_true = !value(self.values, v);
        self.clause([negative(v)], is_true);
    }

    // The clause that affirms a variable.
    fn unit_is(&mut self, v: usize)
        requires { v < literal_room }
        ensures { Passes (words_of (one (one (is v)))) self.old self.new }
    {
        let is_true = value(self.values, v);
        self.clause([positive(v)], is_true);
    }

    // The clause of two variables: the first implies the second.
    pub fn implies(&mut self, u: usize, v: usize)
        requires { (u < literal_room) × (v < literal_room) }
        ensures { Passes (words_of (one (not' u ∷ one (is v)))) self.old self.new }
    {
        let is_true = !value(self.values, u) || value(self.values, v);
        self.clause([negative(u), positive(v)], is_true);
    }

    // The clause of two variables: not both.
    pub fn not_both(&mut self, u: usize, v: usize)
        requires { (u < literal_room) × (v < literal_room) }
        ensures { Passes (words_of (one (not' u ∷ one (not' v)))) self.old self.new }
    {
        let is_true = !value(self.values, u) || !value(self.values, v);
        self.clause([negative(u), negative(v)], is_true);
    }

    // The clause of three variables: the first implies the second or the third.
    pub fn implies_either(&mut self, u: usize, v: usize, x: usize)
        requires { (u < literal_room) × (v < literal_room) × (x < literal_room) }
        ensures { Passes (words_of (one (not' u ∷ is v ∷ one (is x)))) self.old self.new }
    {
        let is_true = !value(self.values, u) || value(self.values, v) || value(self.values, x);
        self.clause([negative(u), positive(v), positive(x)], is_true);
    }

    // Passes the literal that affirms a variable, where the test holds.
    pub fn affirm_if(&mut self, test: bool, v: usize)
        requires { v < literal_room }
        ensures { Passes (only test (one (is v))) self.old self.new }
    {
        if test {
            self.affirm(v);
        }
    }

    // The clause that denies a variable, where the test holds.
    pub fn unit_not_if(&mut self, test: bool, v: usize)
        requires { v < literal_room }
        ensures { Passes (words_of (only test (one (one (not' v))))) self.old self.new }
    {
        if test {
            self.unit_not(v);
        }
    }

    // The clause that affirms a variable, where the test holds.
    pub fn unit_is_if(&mut self, test: bool, v: usize)
        requires { v < literal_room }
        ensures { Passes (words_of (only test (one (one (is v))))) self.old self.new }
    {
        if test {
            self.unit_is(v);
        }
    }

    // The clauses that deny n variables, one behind the other.
    pub fn deny_all(&mut self, from: usize, n: usize)
        requires { from + n < literal_room }
        ensures { Passes (words_of (map (λ k. one (not' (from + k))) (up_to n))) self.old self.new }
    {
        for k in 0..n {
            self.unit_not(from + k);
        }
    }

    // The clause that affirms one of n variables, one behind the other.
    pub fn some_of(&mut self, from: usize, n: usize)
        requires { from + n < literal_room }
        ensures { Passes (words_of (one (map (λ k. is (from + k)) (up_to n)))) self.old self.new }
    {
        for k in 0..n {
            self.affirm(from + k);
        }
        self.close();
    }

    // The clauses "not both" of each two of n variables, one behind the other.
    pub fn no_two(&mut self, from: usize, n: usize)
        requires { (from + n < literal_room) × (n ≤ paired_most) }
        ensures { Passes
            (words_of (each (up_to n) λ m. map (λ k. not' (from + m) ∷ one (not' (from + k))) (range (m + 1) n)))
            self.old self.new }
    {
        for m in 0..n {
            self.pairs_of(from, m, n);
        }
    }

    // Those of the variable at m and each behind it. Where the variable at m is not 1 they all hold, and
    // are counted at once, and stored, if at all, without a test of each.
    fn pairs_of(&mut self, from: usize, m: usize, n: usize)
        requires { (from + n < literal_room) × (m < n) × (n ≤ paired_most) }
        ensures { Passes (words_of (map (λ k. not' (from + m) ∷ one (not' (from + k))) (range (m + 1) n))) self.old self.new }
    {
        let k = n - m - 1;
        let at = self.tally.words;
        let room = self.out.len();
        let all_hold = !value(self.values, from + m);
        if all_hold && room == 0 {
            self.tally.skip_pairs(k);
        } else if all_hold && at <= MOST - 3 * k && at + 3 * k <= room {
            store_pairs(self.out, at, from, m, n);
            self.tally.skip_pairs(k);
        } else {
            self.each_pair(from, m, n);
        }
    }

    // The same, one by one; the first variable's value is asked for once.
    fn each_pair(&mut self, from: usize, m: usize, n: usize)
        requires { (from + n < literal_room) × (m < n) }
        ensures { Passes (words_of (map (λ k. not' (from + m) ∷ one (not' (from + k))) (range (m + 1) n))) self.old self.new }
    {
        let denied = !value(self.values, from + m);
        for k in m + 1..n {
            let is_true = denied || !value(self.values, from + k);
            self.clause([negative(from + m), negative(from + k)], is_true);
        }
    }
}
