// Rule 6, that no section holds segments of two trains' runs in an interval, by the labels of sections:
// in each interval the labels that earlier trains touch are marked, so that the rule costs the segments
// of the interval's runs. Assumes nothing.
ghost use Rattle.std.specs.Prelude.{◌≡◌, ◌<◌, length, T, ltb};
ghost use Rattle.spec.specs.Lists.{any};
ghost use Rattle.spec.specs.Read.{max_trains, max_runs};
ghost use Rattle.spec.specs.Instance.{instance_of};
ghost use Rattle.spec.specs.Plan.{if_run, plan_of, apart_in, rule6};
ghost use Rattle.spec.specs.Carriers.{earliest};
ghost use Rattle.spec.specs.Held.{held};
ghost use Rattle.listing.specs.Listed.{table_bytes};
ghost use Rattle.layout.specs.Moves.{held_move};
ghost use Rattle.plan_rules.specs.Marks.{PlanLabelled, StretchFits, stretch_of, labels_of, is_marked, marking};

use layout::moves::{Move, move_at};
use listing::{ENTRY_BYTES, TRAIN_BYTES};
use model::{Book, Counts, MAX_SEGMENTS};
use tables::places::start_of;

// A stretch of the table of all trains' runs: `size` directed segments from `at` on.
#[derive(Clone, Copy, Debug, PartialEq, Eq)]
pub struct Stretch {
    pub at: usize,
    pub size: usize,
}

// Where the table holds the run that a train's move is; a stretch of no segments where it is none.
pub fn stretch_of(m: Move, runs: &[u8], train: usize) -> Stretch
    requires { (train < max_trains) × (length runs.now ≡ table_bytes) × T (if_run (held_move m) (λ r. ltb r max_runs)) }
    ensures { result ≡ stretch_of runs.now train (held_move m) }
{
    match m {
        Move::Run(r) => {
            let part = train * TRAIN_BYTES;
            let at = part + start_of(r);
            let size = usize::from(runs[part + r * ENTRY_BYTES]);
            Stretch { at, size }
        }
        Move::Absent | Move::Gone => Stretch { at: 0, size: 0 },
    }
}

// Whether some segment of a stretch has a marked label.
pub fn touches(stretch: Stretch, runs: &[u8], labels: &[usize], marks: &[u8; MAX_SEGMENTS]) -> bool
    requires { StretchFits labels.now runs.now stretch }
    ensures { result ≡ any (is_marked marks.now) (labels_of labels.now runs.now stretch) }
{
    runs[stretch.at..stretch.at + stretch.size]
        .iter()
        .any(|d| marks[labels[usize::from(*d) / 2]] == 1)
}

// Marks the labels of a stretch's segments.
pub fn mark(stretch: Stretch, runs: &[u8], labels: &[usize], marks: &mut [u8; MAX_SEGMENTS])
    requires { StretchFits labels.now runs.now stretch }
    ensures { marks.new ≡ marking marks.old (labels_of labels.now runs.now stretch) }
{
    for d in &runs[stretch.at..stretch.at + stretch.size] {
        marks[labels[usize::from(*d) / 2]] = 1;
    }
}

// Rule 6 of one interval: whether no two trains' runs share a section.
fn interval_apart(
    b: Book,
    counts: Counts,
    interval: usize,
    runs: &[u8],
    labels: &[usize],
    plan: &[u8],
) -> bool
    requires { PlanLabelled b counts runs.now labels.now plan.now × (interval < b.intervals) }
    ensures { result ≡ apart_in (instance_of (held b)) (plan_of (instance_of (held b)) plan.now) interval }
{
    let mut marks = [0u8; MAX_SEGMENTS];
    for i in 0..b.train_count {
        let stretch = stretch_of(move_at(b, plan, i, interval), runs, i);
        if touches(stretch, runs, labels, &marks) {
            return false;
        }
        mark(stretch, runs, labels, &mut marks);
    }
    true
}

// The earliest interval in which two trains' runs share a section, or how many intervals there are.
pub fn earliest_meeting(
    b: Book,
    counts: Counts,
    runs: &[u8],
    labels: &[usize],
    plan: &[u8],
) -> usize
    requires { PlanLabelled b counts runs.now labels.now plan.now }
    ensures { result ≡ earliest (instance_of (held b)) (plan_of (instance_of (held b)) plan.now) }
{
    (0..b.intervals)
        .find(|interval| !interval_apart(b, counts, *interval, runs, labels, plan))
        .unwrap_or(b.intervals)
}

// Rule 6: whether in each interval no section holds segments of two trains' runs.
pub fn rule_6(b: Book, counts: Counts, runs: &[u8], labels: &[usize], plan: &[u8]) -> bool
    requires { PlanLabelled b counts runs.now labels.now plan.now }
    ensures { result ≡ rule6 (instance_of (held b)) (plan_of (instance_of (held b)) plan.now) }
{
    earliest_meeting(b, counts, runs, labels, plan) == b.intervals
}
