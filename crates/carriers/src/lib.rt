// Which borders carry a plan: the set kind 1 nodes whose clearing alone lets trains meet, each with where
// they meet first. `list_carriers` is the entry point: it takes any bytes as a book and as a plan, and
// answers how long the list is that it wrote, or one numbered refusal, with the output as it was. Assumes
// nothing.
#![tactic(auto)]

mod clearing;
mod meeting;

ghost use Rattle.std.specs.Prelude.{◌≡◌, length};
ghost use Rattle.spec.specs.Instance.{instance_of};
ghost use Rattle.spec.specs.Answers.{told, accepted_as};
ghost use Rattle.spec.specs.Held.{held};
ghost use Rattle.spec.specs.Entry.{overwrite, written};
ghost use Rattle.spec.specs.Carriers.{carriers_for, list_carriers, carriers_output};

use clearing::{CARRIER_BYTES, put_list};
use listing::TABLE_BYTES;
use model::Refusal;
use network::track::count_free;
use plan_rules::judging::admit_plan;
use tables::meets::MEET_BYTES;
use tables::preparing::{Prepared, prepare};
use tables::ready::Tables;

// 12, then the verdict on a plan, then its list, by the tables of a book; answers how many bytes the list has.
fn list_by(t: &Tables, plan: &[u8], out: &mut [u8]) -> Result<usize, Refusal>
    ensures answer { told result ≡ accepted_as length (carriers_for (instance_of (held t.now.book)) plan.now (length out.old)) }
    ensures output { out.new ≡ overwrite out.old (written (carriers_for (instance_of (held t.now.book)) plan.now (length out.old))) }
{
    let room = count_free(t.book) * CARRIER_BYTES;
    admit_plan(t, plan, room, out.len())?;
    Ok(put_list(t.book, t.counts, t.runs, t.meets, plan, out))
}

// An entry point: the borders that carry a plan that keeps the rules for a book; answers how many bytes their
// list has.
pub fn list_carriers(book: &[u8], plan: &[u8], out: &mut [u8]) -> Result<usize, Refusal>
    ensures answer { told result ≡ accepted_as length (list_carriers book.now plan.now (length out.old)) }
    ensures output { out.new ≡ carriers_output book.now plan.now out.old }
{
    let mut runs = [0u8; TABLE_BYTES];
    let mut meets = [0u8; MEET_BYTES];
    let Prepared {
        book,
        counts,
        meet_bytes,
    } = prepare(book, &mut runs, &mut meets)?;
    let t = Tables {
        book,
        counts,
        runs: &runs,
        meets: &meets[..meet_bytes],
    };
    list_by(&t, plan, out)
}
