// The plan rules 1 to 5, checked from the plan itself: the borders by node, the other rules by train.
// Rules 2 to 5 go through one loop over the trains. Assumes nothing.
ghost use Rattle.std.specs.Prelude.{◌≡◌, Bool, not, ◌&&◌, ◌||◌, cond, ℕ, ◌<◌, T};
ghost use Rattle.spec.specs.Lists.{all, up_to};
ghost use Rattle.spec.specs.Book.{denies_border, forces_border, goal_of};
ghost use Rattle.spec.specs.Instance.{instance_of, call_at, served_at_departure};
ghost use Rattle.spec.specs.Plan as plans;
ghost use Rattle.spec.specs.Plan.{is_move, is_absent, is_gone, if_run, plan_of, plan_fits, served_by, absent_before, departs, leaves_rightly, runs_on, keeps_calls};
ghost use Rattle.spec.specs.Held.{held, held_option};
ghost use Rattle.tables.specs.Tables.{Passed};
ghost use Rattle.tables.specs.Ready.{RunsReady};
ghost use Rattle.layout.specs.Moves.{held_move};
ghost use Rattle.plan_rules.specs.Kept.{first_broken, Planned, TrainReady};

use layout::moves::{Move, is_gone, move_at};
use listing::TRAIN_BYTES;
use model::{Book, Call, Counts};
use network::calls::{call_at, calls_of, goal};
use network::track::{denies_border, forces_border, length_in_segments};
use tables::places::{
    end_of, follows, in_window, is_given, may_leave, served_at_departure, serves, start_of,
};

// Whether a border, or none, respects the kind of its node.
fn border_fits(kind: u8, border: bool) -> bool
    ensures { result ≡ ((not (denies_border kind) || not border) && (not (forces_border kind) || border)) }
{
    if border {
        !denies_border(kind)
    } else {
        !forces_border(kind)
    }
}

// 1: "Borders respect their kinds."
fn rule_1(b: Book, plan: &[u8]) -> bool
    requires { Passed b × T (plan_fits (instance_of (held b)) plan.now) }
    ensures { result ≡ plans.rule1 (instance_of (held b)) (plan_of (instance_of (held b)) plan.now) }
{
    (0..b.node_count).all(|node| border_fits(b.nodes[node], plan[node] == 1))
}

// Whether a move is absent, where its interval is before the departure, or else is not absent.
fn absent_if(m: Move, before: bool) -> bool
    ensures { result ≡ cond before (is_absent (held_move m)) (not (is_absent (held_move m))) }
{
    matches!(m, Move::Absent) == before
}

// Whether a move is a run from the place that the train is given.
fn starts_given(b: Book, train: usize, l: usize, runs: &[u8], m: Move) -> bool
    requires { TrainReady b train l runs.now × T (is_move (instance_of (held b)) train (held_move m)) }
    ensures { result ≡ plans.runs (held_move m) (λ r. (instance_of (held b)).given train r) }
{
    match m {
        Move::Run(r) => is_given(b.trains[train], runs, start_of(r), l),
        Move::Absent | Move::Gone => false,
    }
}

// Whether a move is a run after which the train, with this goal, may be gone.
fn may_go(b: Book, train: usize, to: Call, l: usize, runs: &[u8], m: Move) -> bool
    requires { TrainReady b train l runs.now × T (is_move (instance_of (held b)) train (held_move m))
        × (to ≡ goal_of (held b) train) }
    ensures { result ≡ plans.runs (held_move m) (λ r. (instance_of (held b)).leaves train r) }
{
    match m {
        Move::Run(r) => may_leave(b, train, to, runs, end_of(runs, r, l), l),
        Move::Absent | Move::Gone => false,
    }
}

// Whether a move is a run that ends at a place which serves the train's call with a number.
fn run_serves(b: Book, train: usize, number: usize, c: Call, l: usize, runs: &[u8], m: Move) -> bool
    requires { TrainReady b train l runs.now × T (is_move (instance_of (held b)) train (held_move m))
        × (c ≡ call_at (held b) train number) }
    ensures { result ≡ plans.runs (held_move m) (λ r. (instance_of (held b)).serves train number r) }
{
    match m {
        Move::Run(r) => serves(b, c, runs, end_of(runs, r, l), l),
        Move::Absent | Move::Gone => false,
    }
}

// Whether a move is no run, or starts at the place where run r ended.
fn goes_from(b: Book, train: usize, l: usize, r: usize, runs: &[u8], m: Move) -> bool
    requires { TrainReady b train l runs.now × (r < (instance_of (held b)).runs train)
        × T (is_move (instance_of (held b)) train (held_move m)) }
    ensures { result ≡ if_run (held_move m) (λ q. (instance_of (held b)).follows train r q) }
{
    match m {
        Move::Run(q) => follows(runs, r, q, l),
        Move::Absent | Move::Gone => true,
    }
}

// Whether, where both moves are runs, the second starts at the place where the first ended.
fn goes_on(b: Book, train: usize, l: usize, runs: &[u8], before: Move, m: Move) -> bool
    requires { TrainReady b train l runs.now × T (is_move (instance_of (held b)) train (held_move before))
        × T (is_move (instance_of (held b)) train (held_move m)) }
    ensures { result ≡ if_run (held_move before) (λ r. if_run (held_move m) (λ q. (instance_of (held b)).follows train r q)) }
{
    match before {
        Move::Run(r) => goes_from(b, train, l, r, runs, m),
        Move::Absent | Move::Gone => true,
    }
}

// Whether a move may come after another, as far as gone goes; `late` says that it is after the
// departure.
fn gone_fits(
    b: Book,
    train: usize,
    to: Call,
    l: usize,
    late: bool,
    runs: &[u8],
    before: Move,
    m: Move,
) -> bool
    requires { TrainReady b train l runs.now × T (is_move (instance_of (held b)) train (held_move before))
        × (to ≡ goal_of (held b) train) }
    ensures { result ≡ ((not (is_gone (held_move m))
        || (late && (is_gone (held_move before) || plans.runs (held_move before) (λ r. (instance_of (held b)).leaves train r))))
        && (not (is_gone (held_move before)) || is_gone (held_move m))) }
{
    let gone = is_gone(m);
    if is_gone(before) {
        return gone && late;
    }
    !gone || late && may_go(b, train, to, l, runs, before)
}

// 2, of one train: "Absent exactly in intervals before d".
fn absent_before(b: Book, train: usize, plan: &[u8]) -> bool
    requires { Planned b train plan.now }
    ensures { result ≡ absent_before (instance_of (held b)) (plan_of (instance_of (held b)) plan.now) train }
{
    let d = b.trains[train].departure;
    (0..b.intervals).all(|t| absent_if(move_at(b, plan, train, t), t < d))
}

// 2, of one train: "Absent exactly in intervals before d; a run from the given place in interval d."
fn train_departs(b: Book, train: usize, l: usize, runs: &[u8], plan: &[u8]) -> bool
    requires { TrainReady b train l runs.now × T (plan_fits (instance_of (held b)) plan.now) }
    ensures { result ≡ departs (instance_of (held b)) (plan_of (instance_of (held b)) plan.now) train }
{
    let d = b.trains[train].departure;
    let m = move_at(b, plan, train, d);
    absent_before(b, train, plan) && starts_given(b, train, l, runs, m)
}

// 3, of one train: "Gone only after d, after gone or after a run" that gone may follow. "After gone,
// gone."
fn train_leaves(b: Book, train: usize, l: usize, runs: &[u8], plan: &[u8]) -> bool
    requires { TrainReady b train l runs.now × T (plan_fits (instance_of (held b)) plan.now) }
    ensures { result ≡ leaves_rightly (instance_of (held b)) (plan_of (instance_of (held b)) plan.now) train }
{
    let to = goal(b, train);
    let d = b.trains[train].departure;
    let mut before = Move::Absent;
    for t in 0..b.intervals {
        let m = move_at(b, plan, train, t);
        if !gone_fits(b, train, to, l, d < t, runs, before, m) {
            return false;
        }
        before = m;
    }
    true
}

// 4, of one train: "A run after a run starts at the place where that one ended."
fn train_runs(b: Book, train: usize, l: usize, runs: &[u8], plan: &[u8]) -> bool
    requires { TrainReady b train l runs.now × T (plan_fits (instance_of (held b)) plan.now) }
    ensures { result ≡ runs_on (instance_of (held b)) (plan_of (instance_of (held b)) plan.now) train }
{
    let mut before = Move::Absent;
    for t in 0..b.intervals {
        let m = move_at(b, plan, train, t);
        if !goes_on(b, train, l, runs, before, m) {
            return false;
        }
        before = m;
    }
    true
}

// 5: whether the call is served after the departure: "at time t > d it is the end of the run of
// interval t − 1, if there was one". Here t is that interval.
fn served_after(
    b: Book,
    train: usize,
    number: usize,
    c: Call,
    l: usize,
    runs: &[u8],
    plan: &[u8],
) -> bool
    requires { TrainReady b train l runs.now × T (plan_fits (instance_of (held b)) plan.now)
        × (c ≡ call_at (held b) train number) }
    ensures { result ≡ served_by (instance_of (held b)) (plan_of (instance_of (held b)) plan.now) train number }
{
    let d = b.trains[train].departure;
    (d..b.intervals).any(|t| {
        in_window(c, t + 1) && run_serves(b, train, number, c, l, runs, move_at(b, plan, train, t))
    })
}

// 5, of one call: "at some time from first to last the train's place contains the segment. At time d
// its place is the given one".
fn call_served(b: Book, train: usize, number: usize, l: usize, runs: &[u8], plan: &[u8]) -> bool
    requires { TrainReady b train l runs.now × T (plan_fits (instance_of (held b)) plan.now) }
    ensures { result ≡ (served_at_departure (instance_of (held b)) train number
        || served_by (instance_of (held b)) (plan_of (instance_of (held b)) plan.now) train number) }
{
    let c = call_at(b, train, number);
    served_at_departure(b, c, b.trains[train]) || served_after(b, train, number, c, l, runs, plan)
}

// 5, of one train: each call.
fn train_calls(b: Book, train: usize, l: usize, runs: &[u8], plan: &[u8]) -> bool
    requires { TrainReady b train l runs.now × T (plan_fits (instance_of (held b)) plan.now) }
    ensures { result ≡ keeps_calls (instance_of (held b)) (plan_of (instance_of (held b)) plan.now) train }
{
    (0..calls_of(b, train)).all(|number| call_served(b, train, number, l, runs, plan))
}

// Whether every train keeps a rule: `keeps` answers for one, given its number, its length in segments
// and its part of the table of runs.
fn every_train<F: Fn(usize, usize, &[u8]) -> bool>(
    b: Book,
    counts: Counts,
    runs: &[u8],
    keeps: F,
) -> bool
    requires ready { RunsReady b counts runs.now }
    requires callable { (i l : ℕ) (own : _) → TrainReady b i l own.now → F.pre keeps i l own }
    ensures { (holds : ℕ → Bool)
        → ((i l : ℕ) (own : _) (answer : Bool) → TrainReady b i l own.now → F.post keeps i l own answer → answer ≡ holds i)
        → result ≡ all holds (up_to (instance_of (held b)).trains) }
{
    for i in 0..b.train_count {
        let part = i * TRAIN_BYTES;
        let l = length_in_segments(b, b.trains[i]);
        if !keeps(i, l, &runs[part..part + TRAIN_BYTES]) {
            return false;
        }
    }
    true
}

// 2: "Absent exactly in intervals before d; a run from the given place in interval d."
fn rule_2(b: Book, counts: Counts, runs: &[u8], plan: &[u8]) -> bool
    requires { RunsReady b counts runs.now × T (plan_fits (instance_of (held b)) plan.now) }
    ensures { result ≡ plans.rule2 (instance_of (held b)) (plan_of (instance_of (held b)) plan.now) }
{
    every_train(
        b,
        counts,
        runs,
        |i, l, own| train_departs(b, i, l, own, plan),
    )
}

// 3: "Gone only after d, after gone or after a run" that gone may follow. "After gone, gone."
fn rule_3(b: Book, counts: Counts, runs: &[u8], plan: &[u8]) -> bool
    requires { RunsReady b counts runs.now × T (plan_fits (instance_of (held b)) plan.now) }
    ensures { result ≡ plans.rule3 (instance_of (held b)) (plan_of (instance_of (held b)) plan.now) }
{
    every_train(
        b,
        counts,
        runs,
        |i, l, own| train_leaves(b, i, l, own, plan),
    )
}

// 4: "A run after a run starts at the place where that one ended."
fn rule_4(b: Book, counts: Counts, runs: &[u8], plan: &[u8]) -> bool
    requires { RunsReady b counts runs.now × T (plan_fits (instance_of (held b)) plan.now) }
    ensures { result ≡ plans.rule4 (instance_of (held b)) (plan_of (instance_of (held b)) plan.now) }
{
    every_train(b, counts, runs, |i, l, own| train_runs(b, i, l, own, plan))
}

// 5: "Each call: at some time from first to last the train's place contains the segment."
fn rule_5(b: Book, counts: Counts, runs: &[u8], plan: &[u8]) -> bool
    requires { RunsReady b counts runs.now × T (plan_fits (instance_of (held b)) plan.now) }
    ensures { result ≡ plans.rule5 (instance_of (held b)) (plan_of (instance_of (held b)) plan.now) }
{
    every_train(b, counts, runs, |i, l, own| train_calls(b, i, l, own, plan))
}

// The least broken of rules 1 to 5, if one is.
pub fn first_broken(b: Book, counts: Counts, runs: &[u8], plan: &[u8]) -> Option<usize>
    requires { RunsReady b counts runs.now × T (plan_fits (instance_of (held b)) plan.now) }
    ensures { held_option result ≡ first_broken (instance_of (held b)) (plan_of (instance_of (held b)) plan.now) }
{
    if !rule_1(b, plan) {
        return Some(1);
    }
    if !rule_2(b, counts, runs, plan) {
        return Some(2);
    }
    if !rule_3(b, counts, runs, plan) {
        return Some(3);
    }
    if !rule_4(b, counts, runs, plan) {
        return Some(4);
    }
    if !rule_5(b, counts, runs, plan) {
        return Some(5);
    }
    None
}
