// The page of a plan: a line an interval, 80 bytes and a newline. Assumes nothing.
ghost use Rattle.std.specs.Prelude.{◌≡◌, ◌+◌, ◌*◌, ◌≤◌, ◌<◌, length, T};
ghost use Rattle.std.proofs.lemmas.List.Edits.{sets};
ghost use Rattle.spec.specs.Instance.{instance_of};
ghost use Rattle.spec.specs.Plan.{plan_of, plan_fits};
ghost use Rattle.spec.specs.Page as pages;
ghost use Rattle.spec.specs.Entry.{overwrite};
ghost use Rattle.spec.specs.Held.{held};
ghost use Rattle.tables.specs.Ready.{RunsReady};

use crate::cells::{cell_at, head_of};
use frames::bytes::put_bytes;
use model::{Book, Counts};

// How many bytes a line has ahead of its newline, and with it.
const LINE_TEXT: usize = 80;

pub const LINE_BYTES: usize = LINE_TEXT + 1;

// Stores the cells of an interval, one a train, from a place on; answers where they end.
fn put_cells(
    b: Book,
    counts: Counts,
    runs: &[u8],
    plan: &[u8],
    interval: usize,
    page: &mut [u8],
    at: usize,
) -> usize
    requires { RunsReady b counts runs.now × T (plan_fits (instance_of (held b)) plan.now) × (interval < b.intervals)
        × (at + 9 * b.train_count ≤ length page.old) }
    ensures { (result ≡ at + 9 * b.train_count)
        × (page.new ≡ sets page.old at
        (pages.cells (instance_of (held b)) (plan_of (instance_of (held b)) plan.now) interval)) }
{
    let mut end = at;
    for train in 0..b.train_count {
        let cell = cell_at(b, counts, runs, plan, train, interval);
        end = put_bytes(page, end, &cell);
    }
    end
}

// Stores the line of an interval from a place on.
fn put_line(
    b: Book,
    counts: Counts,
    runs: &[u8],
    plan: &[u8],
    interval: usize,
    page: &mut [u8],
    at: usize,
)
    requires { RunsReady b counts runs.now × T (plan_fits (instance_of (held b)) plan.now) × (interval < b.intervals)
        × (at + 81 ≤ length page.old) }
    ensures { page.new ≡ sets page.old at
        (pages.page_line (instance_of (held b)) (plan_of (instance_of (held b)) plan.now) interval) }
{
    let head = head_of(interval);
    let from = put_bytes(page, at, &head);
    let end = put_cells(b, counts, runs, plan, interval, page, from);
    let last = at + LINE_TEXT;
    page[end..last].fill(b' ');
    page[last] = b'\n';
}

// Writes the page of a plan over the start of the output.
pub fn put_page(b: Book, counts: Counts, runs: &[u8], plan: &[u8], page: &mut [u8])
    requires { RunsReady b counts runs.now × T (plan_fits (instance_of (held b)) plan.now)
        × (pages.page_bytes (instance_of (held b)) ≤ length page.old) }
    ensures { page.new ≡ overwrite page.old
        (pages.page (instance_of (held b)) (plan_of (instance_of (held b)) plan.now)) }
{
    for interval in 0..b.intervals {
        put_line(b, counts, runs, plan, interval, page, interval * LINE_BYTES);
    }
}
