// The train graph of a plan, which signal engineers pin to the wall: a page of a line an interval, with a
// cell a train. `print_graph` is the entry point: it takes any bytes as a book and as a plan, and answers
// how long the page is that it wrote, or one numbered refusal, with the output as it was. Assumes nothing.
#![tactic(auto)]

mod cells;
mod page;

ghost use Rattle.std.specs.Prelude.{◌≡◌, length};
ghost use Rattle.spec.specs.Instance.{instance_of};
ghost use Rattle.spec.specs.Answers.{told, accepted_as};
ghost use Rattle.spec.specs.Held.{held};
ghost use Rattle.spec.specs.Entry.{overwrite, written};
ghost use Rattle.spec.specs.Page.{page_for, print_graph, page_output};

use listing::TABLE_BYTES;
use model::Refusal;
use page::{LINE_BYTES, put_page};
use plan_rules::judging::admit_plan;
use tables::meets::MEET_BYTES;
use tables::preparing::{Prepared, prepare};
use tables::ready::Tables;

// 12, then the verdict on a plan, then its page, by the tables of a book; answers how many bytes the page has.
fn page_by(t: &Tables, plan: &[u8], page: &mut [u8]) -> Result<usize, Refusal>
    ensures answer { told result ≡ accepted_as length (page_for (instance_of (held t.now.book)) plan.now (length page.old)) }
    ensures output { page.new ≡ overwrite page.old (written (page_for (instance_of (held t.now.book)) plan.now (length page.old))) }
{
    let length = t.book.intervals * LINE_BYTES;
    admit_plan(t, plan, length, page.len())?;
    put_page(t.book, t.counts, t.runs, plan, page);
    Ok(length)
}

// An entry point: the page of a plan that keeps the rules for a book; answers how many bytes it has.
pub fn print_graph(book: &[u8], plan: &[u8], page: &mut [u8]) -> Result<usize, Refusal>
    ensures answer { told result ≡ accepted_as length (print_graph book.now plan.now (length page.old)) }
    ensures output { page.new ≡ page_output book.now plan.now page.old }
{
    let mut runs = [0u8; TABLE_BYTES];
    let mut meets = [0u8; MEET_BYTES];
    let Prepared {
        book,
        counts,
        meet_bytes,
    } = prepare(book, &mut runs, &mut meets)?;
    let t = Tables {
        book,
        counts,
        runs: &runs,
        meets: &meets[..meet_bytes],
    };
    page_by(&t, plan, page)
}
