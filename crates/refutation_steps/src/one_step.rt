// The check of one step of a refutation: 17, 18, 19 over all hints, 12 with the step's words and clause
// added, then 20, the step rule. A proved step's clause is kept behind those before it. Assumes
// nothing.
ghost use Rattle.std.specs.Prelude.{◌≡◌, ◌≤◌, length, take, drop};
ghost use Rattle.spec.specs.Refutation.{clauses_of};
ghost use Rattle.spec.specs.Answers.{told};
ghost use Rattle.refutation_steps.specs.Checked.{Ready, step_verdict, Leaves};

use model::Refusal;
use propagation::clause_table::store_clause;
use propagation::hints::follows_rule;
use refutation_file::numbers::{hints_fit, literals_fit};
use refutation_file::steps::{Step, hints_at, literals_at, step_at};

// How far the lent slices are filled with the clauses that a step may name: so many words, so many
// clauses.
#[derive(Clone, Copy, Debug, PartialEq, Eq)]
pub struct Extent {
    pub words: usize,
    pub clauses: usize,
}

// The step at a place, whose number among the steps is given: proved, with its clause kept, or refused. The
// slices are filled with the clauses before it. Which variables are left on the trail is free.
pub fn check_step(
    r: &[u8],
    at: usize,
    number: usize,
    filled: Extent,
    words: &mut [i32],
    starts: &mut [usize],
    values: &mut [u8],
    trail: &mut [usize],
) -> Result<Step, Refusal>
    requires { (at ≤ length r.now) × Ready filled words.old starts.old values.old trail.old }
    ensures answer { told result ≡ step_verdict (length words.old) (length starts.old) (length values.old)
        (clauses_of (take filled.words words.old)) number (drop at r.now) }
    ensures leaves { Leaves result (drop at r.now) filled
        words.old starts.old values.old trail.old
        words.new starts.new values.new trail.new }
{
    let used = filled.words;
    let count = filled.clauses;
    let step = step_at(r, at).ok_or(Refusal::CutStep(number))?;
    let literals = literals_at(r, at, step);
    let hints = hints_at(r, at, step);
    if !literals_fit(literals, values.len()) {
        return Err(Refusal::WrongLiteral(number));
    }
    if !hints_fit(hints, count + 1) {
        return Err(Refusal::WrongHint(number));
    }
    // 12: no room for the step's words or for its clause
    if words.len() - used <= step.literals || starts.len() == count {
        return Err(Refusal::NoRoom);
    }
    if !follows_rule(
        literals,
        hints,
        &words[..used],
        &starts[..count],
        values,
        trail,
    ) {
        return Err(Refusal::UnprovedStep(number));
    }
    store_clause(literals, words, used);
    starts[count] = used;
    Ok(step)
}
