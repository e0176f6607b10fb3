// Judging an assignment: 13, its length and bytes, then 14, the least clause of the formula that is
// false. Nothing is written; the formula is walked, not kept. Assumes nothing.
ghost use Rattle.std.specs.Prelude.{◌≡◌};
ghost use Rattle.spec.specs.Instance.{instance_of, under};
ghost use Rattle.spec.specs.Assignment.{assignment_fits};
ghost use Rattle.spec.specs.Answers.{told};
ghost use Rattle.spec.specs.Held.{held, held_cap};
ghost use Rattle.spec.specs.Entry.{judge_assignment};

use crate::walk::walk_formula;
use frames::bytes::all_below;
use layout::numbering::variable_count;
use model::Refusal;
use tables::ready::FormulaTables;

// 13: whether the bytes are an assignment's, 0 or 1 a variable.
fn assignment_fits(t: &FormulaTables, cap: Option<usize>, values: &[u8]) -> bool
    ensures { result ≡ assignment_fits (under (held_cap cap) (instance_of (held t.now.book))) values.now }
{
    values.len() == variable_count(t.book, t.counts, cap) && all_below(values, 0, 2)
}

// The verdict on an assignment, by the tables of a book.
pub fn judge_assignment(t: &FormulaTables, cap: Option<usize>, values: &[u8]) -> Result<(), Refusal>
    ensures { told result ≡ judge_assignment (under (held_cap cap) (instance_of (held t.now.book))) values.now }
{
    if !assignment_fits(t, cap, values) {
        return Err(Refusal::NoAssignment);
    }
    let tally = walk_formula(t, cap, values, &mut []);
    if let Some(clause) = tally.wrong {
        return Err(Refusal::FalseClause(clause));
    }
    Ok(())
}
