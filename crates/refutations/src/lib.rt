// The check of a refutation. `check_refutation` is the entry point: it takes any bytes as a book and as
// a refutation and any four slices, accepts or answers one numbered refusal, and leaves the slices
// zero. Assumes nothing.
#![tactic(auto)]

ghost use Rattle.std.specs.Prelude.{◌≡◌, length, pos};
ghost use Rattle.spec.specs.Instance.{instance_of, under};
ghost use Rattle.spec.specs.Answers.{told};
ghost use Rattle.spec.specs.Held.{held, held_cap};
ghost use Rattle.spec.specs.Entry.{zeroed, refuted_for, check_refutation};
ghost use Rattle.tables.specs.Ready.{Counted};
ghost use Rattle.refutations.specs.Lent.{lengths};
ghost use Rattle.refutations.specs.Standing.{extent_of, words_loaded, starts_loaded, Stands};

use formula::walk::walk_formula;
use layout::numbering::variable_count;
use listing::TABLE_BYTES;
use model::{Book, Counts, Refusal};
use propagation::clause_table::index_clauses;
use refutation_steps::one_step::Extent;
use refutation_steps::step_list::check_steps;
use tables::chains::ALL_CHAINS;
use tables::meets::MEET_BYTES;
use tables::preparing::{Prepared, prepare_chains};
use tables::ready::FormulaTables;

// Writes the words of the formula under a cap, or without one, and where each clause begins, where the slices
// have room for them; answers how many words and clauses these are.
pub fn load_formula(
    t: &FormulaTables,
    cap: Option<usize>,
    words: &mut [i32],
    starts: &mut [usize],
) -> Extent
    ensures extent { result ≡ extent_of (under (held_cap cap) (instance_of (held t.now.book))) }
    ensures words { words.new ≡ words_loaded (under (held_cap cap) (instance_of (held t.now.book))) words.old starts.old }
    ensures starts { starts.new ≡ starts_loaded (under (held_cap cap) (instance_of (held t.now.book))) words.old starts.old }
{
    let none = &t.runs[0..0];
    let measured = walk_formula(t, cap, none, &mut words[0..0]);
    if measured.words <= words.len() && measured.clauses <= starts.len() {
        walk_formula(t, cap, none, words);
        index_clauses(&words[..measured.words], starts);
    }
    Extent {
        words: measured.words,
        clauses: measured.clauses,
    }
}

// 12, then the steps, by the formula in the slices. What the slices hold after it is left free.
pub fn check_loaded(
    b: Book,
    counts: Counts,
    cap: Option<usize>,
    formula: Extent,
    r: &[u8],
    words: &mut [i32],
    starts: &mut [usize],
    values: &mut [u8],
    trail: &mut [usize],
) -> Result<(), Refusal>
    requires { Counted b counts × (formula ≡ extent_of (under (held_cap cap) (instance_of (held b))))
        × Stands (under (held_cap cap) (instance_of (held b))) words.old starts.old }
    ensures { told result ≡ refuted_for (under (held_cap cap) (instance_of (held b))) r.now
        (lengths words.old starts.old values.old trail.old) }
{
    let variables = variable_count(b, counts, cap);
    if words.len() < formula.words || starts.len() < formula.clauses {
        return Err(Refusal::NoRoom);
    }
    if values.len() < variables || trail.len() < variables {
        return Err(Refusal::NoRoom);
    }
    values.fill(0);
    check_steps(r, formula, words, starts, &mut values[..variables], trail)
}

// The verdict on the bytes of a book and of a refutation. What the slices hold after it is left free.
fn refute(
    cap: Option<usize>,
    book: &[u8],
    r: &[u8],
    words: &mut [i32],
    starts: &mut [usize],
    values: &mut [u8],
    trail: &mut [usize],
) -> Result<(), Refusal>
    ensures { told result ≡ check_refutation (held_cap cap) book.now r.now
        (lengths words.old starts.old values.old trail.old) }
{
    let mut runs = [0u8; TABLE_BYTES];
    let mut chains = [0usize; ALL_CHAINS];
    let mut meets = [0u8; MEET_BYTES];
    let Prepared {
        book,
        counts,
        meet_bytes,
    } = prepare_chains(book, &mut runs, &mut chains, &mut meets)?;
    let t = FormulaTables {
        book,
        counts,
        runs: &runs,
        chains: &chains,
        meets: &meets[..meet_bytes],
    };
    let formula = load_formula(&t, cap, words, starts);
    check_loaded(
        t.book, t.counts, cap, formula, r, words, starts, values, trail,
    )
}

// The entry point: whether a refutation is one of the formula of a book, under a cap or without one.
pub fn check_refutation(
    cap: Option<usize>,
    book: &[u8],
    r: &[u8],
    words: &mut [i32],
    starts: &mut [usize],
    values: &mut [u8],
    trail: &mut [usize],
) -> Result<(), Refusal>
    ensures answer { told result ≡ check_refutation (held_cap cap) book.now r.now
        (lengths words.old starts.old values.old trail.old) }
    ensures words { words.new ≡ zeroed (pos 0) (length words.old) }
    ensures starts { starts.new ≡ zeroed 0 (length starts.old) }
    ensures values { values.new ≡ zeroed 0 (length values.old) }
    ensures trail { trail.new ≡ zeroed 0 (length trail.old) }
{
    let answer = refute(cap, book, r, words, starts, values, trail);
    words.fill(0);
    starts.fill(0);
    values.fill(0);
    trail.fill(0);
    answer
}
