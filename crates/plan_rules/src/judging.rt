// Judging a plan: 15, its length and values, then 16, the least rule that it breaks, from the plan
// itself: its sections are computed once, then each rule is one pass. `admit_plan` asks for room in an
// output before that. Nothing is written. Assumes nothing.
ghost use Rattle.std.specs.Prelude.{◌≡◌};
ghost use Rattle.spec.specs.Instance.{instance_of};
ghost use Rattle.spec.specs.Answers.{told};
ghost use Rattle.spec.specs.Held.{held};
ghost use Rattle.spec.specs.Entry.{judge_plan, admit_plan};

use crate::apart::rule_6;
use crate::rules::first_broken;
use layout::moves::plan_fits;
use model::{MAX_SEGMENTS, Refusal};
use sections::labels::label_sections;
use tables::ready::Tables;

// The verdict on a plan.
pub fn judge_plan(t: &Tables, plan: &[u8]) -> Result<(), Refusal>
    ensures { told result ≡ judge_plan (instance_of (held t.now.book)) plan.now }
{
    if !plan_fits(t.book, t.counts, plan) {
        return Err(Refusal::NoPlan);
    }
    if let Some(rule) = first_broken(t.book, t.counts, t.runs, plan) {
        return Err(Refusal::BrokenRule(rule));
    }
    let mut labels = [0usize; MAX_SEGMENTS];
    label_sections(t.book, t.meets, plan, &mut labels);
    if !rule_6(t.book, t.counts, t.runs, &labels, plan) {
        return Err(Refusal::BrokenRule(6));
    }
    Ok(())
}

// 12 by the output's length, then 15 and 16: what is asked before anything is written of a plan.
pub fn admit_plan(t: &Tables, plan: &[u8], need: usize, room: usize) -> Result<(), Refusal>
    ensures { told result ≡ admit_plan (instance_of (held t.now.book)) plan.now need room }
{
    if room < need {
        return Err(Refusal::NoRoom);
    }
    judge_plan(t, plan)
}
