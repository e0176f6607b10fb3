// The combined verdict, P7: this many borders suffice, and fewer never do. `check_fewest` is the entry point: it
// takes any bytes as a book, as an assignment and as a refutation, any n and any four slices, accepts
// or answers one numbered refusal, and leaves the slices zero. Assumes nothing.
#![tactic(auto)]

ghost use Rattle.std.specs.Prelude.{◌≡◌, ◌<◌, length, pos};
ghost use Rattle.spec.specs.Lists.{empty};
ghost use Rattle.spec.specs.Instance.{instance_of};
ghost use Rattle.spec.specs.Refutation.{Lent};
ghost use Rattle.spec.specs.Answers.{told};
ghost use Rattle.spec.specs.Held.{held};
ghost use Rattle.spec.specs.Entry.{demand, zeroed, fewest_for, check_fewest};
ghost use Rattle.refutations.specs.Lent.{lengths};
ghost use Rattle.fewest.specs.Counted.{counted_for, room_for};

use formula::judging::judge_assignment;
use layout::counter::count_set;
use layout::numbering::variable_count;
use listing::TABLE_BYTES;
use model::Refusal;
use refutation_steps::one_step::Extent;
use refutations::{check_loaded, load_formula};
use tables::chains::ALL_CHAINS;
use tables::meets::MEET_BYTES;
use tables::preparing::{Prepared, prepare_chains};
use tables::ready::FormulaTables;

// 13 and 14 without a cap, then 22: whether an assignment is accepted, and its plan sets n nodes of kind 1.
fn judge_count(t: &FormulaTables, n: usize, assignment: &[u8]) -> Result<(), Refusal>
    ensures { told result ≡ counted_for (instance_of (held t.now.book)) n assignment.now }
{
    judge_assignment(t, None, assignment)?;
    if count_set(t.book, assignment) != n {
        return Err(Refusal::WrongCount);
    }
    Ok(())
}

// 21 at n = 0, where there is no lower cap: the refutation is empty.
fn none_below(refutation: &[u8]) -> Result<(), Refusal>
    ensures { told result ≡ demand (empty refutation.now) 21 }
{
    if !refutation.is_empty() {
        return Err(Refusal::WrongEnding);
    }
    Ok(())
}

// The combined verdict on n = 0, by the tables of a book.
fn fewest_none(t: &FormulaTables, assignment: &[u8], refutation: &[u8]) -> Result<(), Refusal>
    ensures { (lent : Lent) → told result ≡ fewest_for (instance_of (held t.now.book)) 0 assignment.now refutation.now lent }
{
    judge_count(t, 0, assignment)?;
    none_below(refutation)
}

// 12: whether slices of these lengths have room for a formula and its variables.
fn has_room(
    formula: Extent,
    variables: usize,
    words: usize,
    starts: usize,
    values: usize,
    trail: usize,
) -> bool
    ensures { result ≡ room_for formula variables (record { words = words; clauses = starts; values = values; trail = trail }) }
{
    formula.words <= words && formula.clauses <= starts && variables <= values && variables <= trail
}

// The combined verdict on an n above 0, by the tables of a book: the refutation is of the formula under cap
// n - 1, which is loaded first. What the slices hold after it is left free.
fn fewest_some(
    t: &FormulaTables,
    n: usize,
    assignment: &[u8],
    refutation: &[u8],
    words: &mut [i32],
    starts: &mut [usize],
    values: &mut [u8],
    trail: &mut [usize],
) -> Result<(), Refusal>
    requires { 0 < n }
    ensures { told result ≡ fewest_for (instance_of (held t.now.book)) n assignment.now refutation.now
        (lengths words.old starts.old values.old trail.old) }
{
    let cap = Some(n - 1);
    let formula = load_formula(t, cap, words, starts);
    let variables = variable_count(t.book, t.counts, cap);
    if !has_room(
        formula,
        variables,
        words.len(),
        starts.len(),
        values.len(),
        trail.len(),
    ) {
        return Err(Refusal::NoRoom);
    }
    judge_count(t, n, assignment)?;
    check_loaded(
        t.book, t.counts, cap, formula, refutation, words, starts, values, trail,
    )
}

// The verdict on the bytes of a book, of an assignment and of a refutation. What the slices hold after it is
// left free.
fn decide(
    book: &[u8],
    n: usize,
    assignment: &[u8],
    refutation: &[u8],
    words: &mut [i32],
    starts: &mut [usize],
    values: &mut [u8],
    trail: &mut [usize],
) -> Result<(), Refusal>
    ensures { told result ≡ check_fewest book.now n assignment.now refutation.now
        (lengths words.old starts.old values.old trail.old) }
{
    let mut runs = [0u8; TABLE_BYTES];
    let mut chains = [0usize; ALL_CHAINS];
    let mut meets = [0u8; MEET_BYTES];
    let Prepared {
        book,
        counts,
        meet_bytes,
    } = prepare_chains(book, &mut runs, &mut chains, &mut meets)?;
    let t = FormulaTables {
        book,
        counts,
        runs: &runs,
        chains: &chains,
        meets: &meets[..meet_bytes],
    };
    if n == 0 {
        return fewest_none(&t, assignment, refutation);
    }
    fewest_some(&t, n, assignment, refutation, words, starts, values, trail)
}

// The entry point: whether an assignment without a cap and a refutation under cap n - 1 show together that n is
// the fewest nodes of kind 1 that a plan sets.
pub fn check_fewest(
    book: &[u8],
    n: usize,
    assignment: &[u8],
    refutation: &[u8],
    words: &mut [i32],
    starts: &mut [usize],
    values: &mut [u8],
    trail: &mut [usize],
) -> Result<(), Refusal>
    ensures answer { told result ≡ check_fewest book.now n assignment.now refutation.now
        (lengths words.old starts.old values.old trail.old) }
    ensures words { words.new ≡ zeroed (pos 0) (length words.old) }
    ensures starts { starts.new ≡ zeroed 0 (length starts.old) }
    ensures values { values.new ≡ zeroed 0 (length values.old) }
    ensures trail { trail.new ≡ zeroed 0 (length trail.old) }
{
    let answer = decide(
        book, n, assignment, refutation, words, starts, values, trail,
    );
    words.fill(0);
    starts.fill(0);
    values.fill(0);
    trail.fill(0);
    answer
}
