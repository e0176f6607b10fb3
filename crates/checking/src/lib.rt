// The checks of what a solver or a planner hands over. `check_assignment` takes any bytes as a book and as
// an assignment and judges it; `unpack_plan` judges it too, and decodes it; `check_plan` takes any bytes as a
// book and as a plan and writes it as an assignment. Each accepts, with its output written, if it has
// one, or answers one numbered refusal, with the output as it was. Each is for the formula under a cap, or
// without one. Assumes nothing.
#![tactic(auto)]

ghost use Rattle.std.specs.Prelude.{◌≡◌, ◌≤◌, length, T};
ghost use Rattle.spec.specs.Instance.{instance_of, under};
ghost use Rattle.spec.specs.Plan.{plan_fits, plan_of};
ghost use Rattle.spec.specs.Cap.{within_cap};
ghost use Rattle.spec.specs.Formula.{variables};
ghost use Rattle.spec.specs.Assignment as assignment;
ghost use Rattle.spec.specs.Answers.{told, accepted_as};
ghost use Rattle.spec.specs.Held.{CountsFit, held, held_cap};
ghost use Rattle.spec.specs.Entry.{overwrite, written, check_assignment, unpacked_for, unpack_plan, plan_output, encoded_for, check_plan, assignment_output};

use formula::judging::judge_assignment;
use layout::counter::count_set;
use layout::moves::plan_length;
use layout::numbering::variable_count;
use listing::TABLE_BYTES;
use model::{Book, MAX_SEGMENTS, Refusal};
use plan_coding::decoding::decode;
use plan_coding::encoding::encode;
use plan_rules::judging::admit_plan;
use sections::labels::label_sections;
use tables::chains::ALL_CHAINS;
use tables::meets::MEET_BYTES;
use tables::preparing::{Prepared, prepare, prepare_chains};
use tables::ready::{FormulaTables, Tables};

// An entry point: whether an assignment satisfies the formula of a book. It is lent nothing.
pub fn check_assignment(cap: Option<usize>, book: &[u8], values: &[u8]) -> Result<(), Refusal>
    ensures { told result ≡ check_assignment (held_cap cap) book.now values.now }
{
    let mut runs = [0u8; TABLE_BYTES];
    let mut chains = [0usize; ALL_CHAINS];
    let mut meets = [0u8; MEET_BYTES];
    let Prepared {
        book,
        counts,
        meet_bytes,
    } = prepare_chains(book, &mut runs, &mut chains, &mut meets)?;
    let t = FormulaTables {
        book,
        counts,
        runs: &runs,
        chains: &chains,
        meets: &meets[..meet_bytes],
    };
    judge_assignment(&t, cap, values)
}

// 12, then the verdict on an assignment, then its plan, by the tables of a book; answers how many bytes the
// plan has.
fn unpack_by(
    t: &FormulaTables,
    cap: Option<usize>,
    values: &[u8],
    out: &mut [u8],
) -> Result<usize, Refusal>
    ensures answer { told result ≡ accepted_as length (unpacked_for (under (held_cap cap) (instance_of (held t.now.book))) values.now (length out.old)) }
    ensures output { out.new ≡ overwrite out.old
        (written (unpacked_for (under (held_cap cap) (instance_of (held t.now.book))) values.now (length out.old))) }
{
    let length = plan_length(t.book);
    if out.len() < length {
        return Err(Refusal::NoRoom);
    }
    judge_assignment(t, cap, values)?;
    decode(t.book, t.counts, values, out);
    Ok(length)
}

// An entry point: the plan that an assignment decodes to, which is judged first; answers how many bytes the
// plan has.
pub fn unpack_plan(
    cap: Option<usize>,
    book: &[u8],
    values: &[u8],
    out: &mut [u8],
) -> Result<usize, Refusal>
    ensures answer { told result ≡ accepted_as length (unpack_plan (held_cap cap) book.now values.now (length out.old)) }
    ensures output { out.new ≡ plan_output (held_cap cap) book.now values.now out.old }
{
    let mut runs = [0u8; TABLE_BYTES];
    let mut chains = [0usize; ALL_CHAINS];
    let mut meets = [0u8; MEET_BYTES];
    let Prepared {
        book,
        counts,
        meet_bytes,
    } = prepare_chains(book, &mut runs, &mut chains, &mut meets)?;
    let t = FormulaTables {
        book,
        counts,
        runs: &runs,
        chains: &chains,
        meets: &meets[..meet_bytes],
    };
    unpack_by(&t, cap, values, out)
}

// Whether a plan sets no more nodes of kind 1 than the cap.
fn within_cap(b: Book, cap: Option<usize>, plan: &[u8]) -> bool
    requires { CountsFit b × (b.node_count ≤ length plan.now) }
    ensures { result ≡ within_cap (under (held_cap cap) (instance_of (held b))) (plan_of (instance_of (held b)) plan.now) }
{
    match cap {
        None => true,
        Some(most) => count_set(b, plan) <= most,
    }
}

// Writes a plan that was accepted as an assignment: it claims exactly the sections that its runs touch.
fn write_plan(t: &Tables, cap: Option<usize>, plan: &[u8], out: &mut [u8])
    requires { T (plan_fits (instance_of (held t.now.book)) plan.now)
        × (variables (under (held_cap cap) (instance_of (held t.now.book))) ≤ length out.old) }
    ensures { out.new ≡ overwrite out.old
        (assignment.encode (under (held_cap cap) (instance_of (held t.now.book))) (plan_of (instance_of (held t.now.book)) plan.now)) }
{
    let mut labels = [0usize; MAX_SEGMENTS];
    label_sections(t.book, t.meets, plan, &mut labels);
    encode(t.book, t.counts, cap, t.runs, &labels, plan, out);
}

// 12, then the verdict on a plan, then 22 where it sets more than the cap, then its assignment, by the
// tables of a book; answers how many bytes the assignment has.
fn encode_by(t: &Tables, cap: Option<usize>, plan: &[u8], out: &mut [u8]) -> Result<usize, Refusal>
    ensures answer { told result ≡ accepted_as length (encoded_for (under (held_cap cap) (instance_of (held t.now.book))) plan.now (length out.old)) }
    ensures output { out.new ≡ overwrite out.old
        (written (encoded_for (under (held_cap cap) (instance_of (held t.now.book))) plan.now (length out.old))) }
{
    let length = variable_count(t.book, t.counts, cap);
    admit_plan(t, plan, length, out.len())?;
    if !within_cap(t.book, cap, plan) {
        return Err(Refusal::WrongCount);
    }
    write_plan(t, cap, plan, out);
    Ok(length)
}

// An entry point: whether a plan keeps the rules for a book, and the assignment that it is written as; answers
// how many bytes that has.
pub fn check_plan(
    cap: Option<usize>,
    book: &[u8],
    plan: &[u8],
    out: &mut [u8],
) -> Result<usize, Refusal>
    ensures answer { told result ≡ accepted_as length (check_plan (held_cap cap) book.now plan.now (length out.old)) }
    ensures output { out.new ≡ assignment_output (held_cap cap) book.now plan.now out.old }
{
    let mut runs = [0u8; TABLE_BYTES];
    let mut meets = [0u8; MEET_BYTES];
    let Prepared {
        book,
        counts,
        meet_bytes,
    } = prepare(book, &mut runs, &mut meets)?;
    let t = Tables {
        book,
        counts,
        runs: &runs,
        meets: &meets[..meet_bytes],
    };
    encode_by(&t, cap, plan, out)
}
