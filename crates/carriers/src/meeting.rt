// Of the trains that meet in an interval the first pair, by the lower and then by the higher train: of one
// train after the other the labels are marked that its run touches, and the higher trains asked for a
// marked one. Assumes nothing.
ghost use Rattle.std.specs.Prelude.{◌≡◌, not, ◌<◌, T};
ghost use Rattle.spec.specs.Instance.{instance_of};
ghost use Rattle.spec.specs.Plan.{plan_of, apart_in};
ghost use Rattle.spec.specs.Carriers.{lower_train, higher_train};
ghost use Rattle.spec.specs.Held.{held};
ghost use Rattle.plan_rules.specs.Marks.{PlanLabelled};

use layout::moves::move_at;
use model::{Book, Counts, MAX_SEGMENTS};
use plan_rules::apart::{mark, stretch_of, touches};

// Two trains that meet.
#[derive(Clone, Copy, Debug, PartialEq, Eq)]
pub struct Pair {
    pub lower: usize,
    pub higher: usize,
}

// The least train above a lower one that meets it, or how many trains there are.
fn higher_train(
    b: Book,
    counts: Counts,
    runs: &[u8],
    labels: &[usize],
    plan: &[u8],
    interval: usize,
    lower: usize,
) -> usize
    requires { PlanLabelled b counts runs.now labels.now plan.now × (interval < b.intervals) × (lower < b.train_count) }
    ensures { result ≡ higher_train (instance_of (held b)) (plan_of (instance_of (held b)) plan.now) interval lower }
{
    let own = stretch_of(move_at(b, plan, lower, interval), runs, lower);
    let mut marks = [0u8; MAX_SEGMENTS];
    mark(own, runs, labels, &mut marks);
    (lower + 1..b.train_count)
        .find(|&higher| {
            let stretch = stretch_of(move_at(b, plan, higher, interval), runs, higher);
            touches(stretch, runs, labels, &marks)
        })
        .unwrap_or(b.train_count)
}

// The first pair that meets in an interval in which trains meet.
pub fn first_pair(
    b: Book,
    counts: Counts,
    runs: &[u8],
    labels: &[usize],
    plan: &[u8],
    interval: usize,
) -> Pair
    requires { PlanLabelled b counts runs.now labels.now plan.now × (interval < b.intervals)
        × T (not (apart_in (instance_of (held b)) (plan_of (instance_of (held b)) plan.now) interval)) }
    ensures { (result.lower ≡ lower_train (instance_of (held b)) (plan_of (instance_of (held b)) plan.now) interval)
        × (result.higher ≡ higher_train (instance_of (held b)) (plan_of (instance_of (held b)) plan.now) interval result.lower)
        × (result.lower < result.higher) × (result.higher < b.train_count) }
{
    for lower in 0..b.train_count {
        let higher = higher_train(b, counts, runs, labels, plan, interval, lower);
        if higher < b.train_count {
            return Pair { lower, higher };
        }
    }
    // not reached: some trains meet
    Pair {
        lower: b.train_count,
        higher: b.train_count,
    }
}
