// Writing a book's formula. `write_formula` is the entry point: it takes any cap, bytes and output, and
// answers the totals, with the words written, or one numbered refusal, with the output as it was.
// The words are measured before anything is written. Assumes nothing.
#![tactic(auto)]

ghost use Rattle.std.specs.Prelude.{◌≡◌, length};
ghost use Rattle.spec.specs.Instance.{instance_of, under};
ghost use Rattle.spec.specs.Answers.{told, accepted_as};
ghost use Rattle.spec.specs.Held.{held, held_cap};
ghost use Rattle.spec.specs.Entry.{written_for, words_after, write_formula, formula_output};
ghost use Rattle.writing.specs.FormulaAnswers.{totals_of};

use formula::walk::walk_formula;
use layout::numbering::variable_count;
use listing::TABLE_BYTES;
use model::Refusal;
use tables::chains::ALL_CHAINS;
use tables::meets::MEET_BYTES;
use tables::preparing::{Prepared, prepare_chains};
use tables::ready::FormulaTables;

// The totals of a formula that was written.
#[derive(Clone, Copy, Debug, PartialEq, Eq)]
pub struct Totals {
    pub variables: usize,
    pub clauses: usize,
    pub words: usize,
}

// 12, then the words, by the tables of a book: measured with an empty output, then written.
fn write_by(t: &FormulaTables, cap: Option<usize>, out: &mut [i32]) -> Result<Totals, Refusal>
    ensures answer { told result ≡ accepted_as totals_of (written_for (under (held_cap cap) (instance_of (held t.now.book))) (length out.old)) }
    ensures output { out.new ≡ words_after out.old (written_for (under (held_cap cap) (instance_of (held t.now.book))) (length out.old)) }
{
    let none = &t.runs[0..0];
    let measured = walk_formula(t, cap, none, &mut out[0..0]);
    if out.len() < measured.words {
        return Err(Refusal::NoRoom);
    }
    let passed = walk_formula(t, cap, none, out);
    Ok(Totals {
        variables: variable_count(t.book, t.counts, cap),
        clauses: passed.clauses,
        words: passed.words,
    })
}

// The entry point: the formula of the book that the bytes hold, under a cap or without one.
pub fn write_formula(cap: Option<usize>, book: &[u8], out: &mut [i32]) -> Result<Totals, Refusal>
    ensures answer { told result ≡ accepted_as totals_of (write_formula (held_cap cap) book.now (length out.old)) }
    ensures output { out.new ≡ formula_output (held_cap cap) book.now out.old }
{
    let mut runs = [0u8; TABLE_BYTES];
    let mut chains = [0usize; ALL_CHAINS];
    let mut meets = [0u8; MEET_BYTES];
    let Prepared {
        book,
        counts,
        meet_bytes,
    } = prepare_chains(book, &mut runs, &mut chains, &mut meets)?;
    let t = FormulaTables {
        book,
        counts,
        runs: &runs,
        chains: &chains,
        meets: &meets[..meet_bytes],
    };
    write_by(&t, cap, out)
}
