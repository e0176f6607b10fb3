// The whole list of steps of a refutation: each step by the clauses before it, and the ending (21).
// Assumes nothing.
ghost use Rattle.std.specs.Prelude.{◌≡◌, length, take};
ghost use Rattle.spec.specs.Refutation.{check_file, clauses_of};
ghost use Rattle.spec.specs.Answers.{told};
ghost use Rattle.refutation_steps.specs.Checked.{Ready, lent_by};
ghost use Rattle.refutation_steps.specs.Added.{LeavesAll};

use crate::one_step::{Extent, check_step};
use model::Refusal;
use refutation_file::steps::step_end;

// The verdict on a refutation's bytes. The slices are filled with the formula's clauses. The clauses of
// the proved steps stand behind them after it, and all variables are open. Which variables are left on
// the trail is free.
pub fn check_steps(
    r: &[u8],
    formula: Extent,
    words: &mut [i32],
    starts: &mut [usize],
    values: &mut [u8],
    trail: &mut [usize],
) -> Result<(), Refusal>
    requires { Ready formula words.old starts.old values.old trail.old }
    ensures answer { told result ≡ check_file (lent_by (length words.old) (length starts.old)) (length values.old)
        (clauses_of (take formula.words words.old)) r.now }
    ensures leaves { LeavesAll r.now formula
        words.old starts.old values.old trail.old
        words.new starts.new values.new trail.new }
{
    let mut filled = formula;
    let mut at = 0;
    let mut number = 1;
    // no `for`: each step says where the next one begins
    while at < r.len() {
        let step = check_step(r, at, number, filled, words, starts, values, trail)?;
        at = step_end(at, step);
        let is_empty = step.literals == 0;
        if is_empty {
            return if at == r.len() {
                Ok(())
            } else {
                Err(Refusal::WrongEnding)
            };
        }
        filled.words += step.literals + 1;
        filled.clauses += 1;
        number += 1;
    }
    Err(Refusal::WrongEnding)
}
