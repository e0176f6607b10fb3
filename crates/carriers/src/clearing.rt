// The list: each set kind 1 border is cleared by itself, in a copy of the plan, and rule 6 judged again.
// Assumes nothing.
ghost use Rattle.std.specs.Prelude.{◌≡◌, ◌+◌, ◌≤◌, ◌<◌, length, T};
ghost use Rattle.std.proofs.lemmas.List.Edits.{sets};
ghost use Rattle.spec.specs.Instance.{instance_of, is_free};
ghost use Rattle.spec.specs.Plan.{plan_of, plan_fits};
ghost use Rattle.spec.specs.Carriers.{carrier_list, carrier_room};
ghost use Rattle.spec.specs.Entry.{overwrite};
ghost use Rattle.spec.specs.Held.{held};
ghost use Rattle.tables.specs.Ready.{RunsReady, MeetsReady};
ghost use Rattle.carriers.specs.Entries.{entry_if, entry_of};

use crate::meeting::first_pair;
use frames::bytes::put_bytes;
use model::{Book, Counts, MAX_INTERVALS, MAX_NODES, MAX_SEGMENTS, MAX_TRAINS};
use network::track::is_free;
use plan_rules::apart::earliest_meeting;
use sections::labels::label_sections;

// How many bytes the entry of a carrier has.
pub const CARRIER_BYTES: usize = 4;

// The most bytes that a plan has: a border a node, and two bytes for each train and interval.
const MAX_PLAN: usize = MAX_NODES + MAX_TRAINS * MAX_INTERVALS * 2;

// Stores the entry of a node from a place on, if trains meet in this plan; answers where the list then ends.
fn put_entry(
    b: Book,
    counts: Counts,
    runs: &[u8],
    meets: &[u8],
    plan: &[u8],
    node: usize,
    out: &mut [u8],
    at: usize,
) -> usize
    requires { RunsReady b counts runs.now × MeetsReady b meets.now × T (plan_fits (instance_of (held b)) plan.now)
        × (node < b.node_count) × (at + 4 ≤ length out.old) }
    ensures { (result ≡ at + length (entry_if (instance_of (held b)) (plan_of (instance_of (held b)) plan.now) node))
        × (out.new ≡ sets out.old at (entry_if (instance_of (held b)) (plan_of (instance_of (held b)) plan.now) node)) }
{
    let mut labels = [0usize; MAX_SEGMENTS];
    label_sections(b, meets, plan, &mut labels);
    let interval = earliest_meeting(b, counts, runs, &labels, plan);
    if interval == b.intervals {
        return at;
    }
    let pair = first_pair(b, counts, runs, &labels, plan, interval);
    let entry = [
        node as u8,
        interval as u8,
        pair.lower as u8,
        pair.higher as u8,
    ];
    put_bytes(out, at, &entry)
}

// Stores the entry of a node, if it carries the plan, from a place on: a set border of kind 1 is cleared, the
// plan judged, and the border set again. Answers where the list then ends.
fn put_node(
    b: Book,
    counts: Counts,
    runs: &[u8],
    meets: &[u8],
    plan: &mut [u8],
    node: usize,
    out: &mut [u8],
    at: usize,
) -> usize
    requires { RunsReady b counts runs.now × MeetsReady b meets.now × T (plan_fits (instance_of (held b)) plan.old)
        × (node < b.node_count) × (T (is_free (instance_of (held b)) node) → at + 4 ≤ length out.old) }
    ensures { (plan.new ≡ plan.old)
        × (result ≡ at + length (entry_of (instance_of (held b)) (plan_of (instance_of (held b)) plan.old) node))
        × (out.new ≡ sets out.old at (entry_of (instance_of (held b)) (plan_of (instance_of (held b)) plan.old) node)) }
{
    if !is_free(b.nodes[node]) {
        return at;
    }
    if plan[node] != 1 {
        return at;
    }
    plan[node] = 0;
    let end = put_entry(b, counts, runs, meets, plan, node, out, at);
    plan[node] = 1;
    end
}

// Writes the list of a plan over the start of the output, and leaves the plan as it was; answers how long
// the list is.
fn put_carriers(
    b: Book,
    counts: Counts,
    runs: &[u8],
    meets: &[u8],
    plan: &mut [u8],
    out: &mut [u8],
) -> usize
    requires { RunsReady b counts runs.now × MeetsReady b meets.now × T (plan_fits (instance_of (held b)) plan.old)
        × (carrier_room (instance_of (held b)) ≤ length out.old) }
    ensures { (plan.new ≡ plan.old)
        × (result ≡ length (carrier_list (instance_of (held b)) (plan_of (instance_of (held b)) plan.old)))
        × (out.new ≡ overwrite out.old (carrier_list (instance_of (held b)) (plan_of (instance_of (held b)) plan.old))) }
{
    let mut end = 0;
    for node in 0..b.node_count {
        end = put_node(b, counts, runs, meets, plan, node, out, end);
    }
    end
}

// The same, of a plan that is only read.
pub fn put_list(
    b: Book,
    counts: Counts,
    runs: &[u8],
    meets: &[u8],
    plan: &[u8],
    out: &mut [u8],
) -> usize
    requires { RunsReady b counts runs.now × MeetsReady b meets.now × T (plan_fits (instance_of (held b)) plan.now)
        × (carrier_room (instance_of (held b)) ≤ length out.old) }
    ensures { (result ≡ length (carrier_list (instance_of (held b)) (plan_of (instance_of (held b)) plan.now)))
        × (out.new ≡ overwrite out.old (carrier_list (instance_of (held b)) (plan_of (instance_of (held b)) plan.now))) }
{
    let mut room = [0u8; MAX_PLAN];
    let copy = &mut room[..plan.len()];
    copy.copy_from_slice(plan);
    put_carriers(b, counts, runs, meets, copy, out)
}
