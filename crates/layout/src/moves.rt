// The moves of a plan: what a train does in an interval, and 15, whether bytes are a plan at all: their
// length, a border or none a node, and moves that the trains have. Assumes nothing.
ghost use Rattle.std.specs.Prelude.{◌≡◌, ◌≤◌, ◌<◌, length, ltb};
ghost use Rattle.spec.specs.Lists.{all, up_to};
ghost use Rattle.spec.specs.Instance.{instance_of};
ghost use Rattle.spec.specs.Plan.{is_gone, if_run, is_move, move_of, move_at, plan_of, plan_length, plan_fits};
ghost use Rattle.spec.specs.Held.{held};
ghost use Rattle.tables.specs.Tables.{Passed};
ghost use Rattle.tables.specs.Ready.{Counted};
ghost use Rattle.layout.specs.Moves.{held_move};

use frames::bytes::all_below;
use frames::pair;
use model::{Book, Counts};

// The numbers that stand for absent and gone in a plan's bytes; all others are runs.
pub const ABSENT: usize = 65534;

pub const GONE: usize = 65535;

// A train's move in an interval: a run of its list, absent, or gone.
#[derive(Clone, Copy, Debug, PartialEq, Eq)]
pub enum Move {
    Run(usize),
    Absent,
    Gone,
}

// The move that a plan's number stands for.
#[tactic(auto, unfolding(spec::specs::Plan::move_of))]
fn move_of(code: usize) -> Move
    ensures { held_move result ≡ move_of code }
{
    match code {
        ABSENT => Move::Absent,
        GONE => Move::Gone,
        run => Move::Run(run),
    }
}

// Where the two bytes of a train's move in an interval stand in a plan: behind a byte a node and the
// moves before it.
pub fn move_place(b: Book, train: usize, interval: usize) -> usize
    requires { Passed b × (train ≤ b.train_count) × (interval ≤ b.intervals) }
    ensures { result ≡ move_at (instance_of (held b)) train interval }
{
    b.node_count + (train * (b.intervals * 2) + interval * 2)
}

// How many bytes a plan has: those before the moves of a train behind the last.
pub fn plan_length(b: Book) -> usize
    requires { Passed b }
    ensures { result ≡ plan_length (instance_of (held b)) }
{
    move_place(b, b.train_count, 0)
}

// The plan's move of a train in an interval.
pub fn move_at(b: Book, plan: &[u8], train: usize, interval: usize) -> Move
    requires { Passed b × (length plan.now ≡ plan_length (instance_of (held b))) × (train < b.train_count) × (interval < b.intervals) }
    ensures { held_move result ≡ (plan_of (instance_of (held b)) plan.now).move train interval }
{
    move_of(pair(plan, move_place(b, train, interval)))
}

// Whether a move is one of a train with n runs.
#[tactic(auto, unfolding(spec::specs::Plan::if_run))]
fn is_move(m: Move, n: usize) -> bool
    ensures { result ≡ if_run (held_move m) (λ k. ltb k n) }
{
    match m {
        Move::Run(r) => r < n,
        Move::Absent | Move::Gone => true,
    }
}

// Whether a move is gone.
#[tactic(auto, unfolding(spec::specs::Plan::is_gone))]
pub fn is_gone(m: Move) -> bool
    ensures { result ≡ is_gone (held_move m) }
{
    m == Move::Gone
}

// Whether a train's moves are those of a train with n runs.
fn train_fits(b: Book, plan: &[u8], train: usize, n: usize) -> bool
    requires { Passed b × (length plan.now ≡ plan_length (instance_of (held b))) × (train < b.train_count)
        × (n ≡ (instance_of (held b)).runs train) }
    ensures { result ≡ all (λ t. is_move (instance_of (held b)) train ((plan_of (instance_of (held b)) plan.now).move train t))
        (up_to (instance_of (held b)).intervals) }
{
    (0..b.intervals).all(|interval| is_move(move_at(b, plan, train, interval), n))
}

// Whether every train's moves are its own.
fn moves_fit(b: Book, counts: Counts, plan: &[u8]) -> bool
    requires { Counted b counts × (length plan.now ≡ plan_length (instance_of (held b))) }
    ensures { result ≡ all (λ i. all (λ t. is_move (instance_of (held b)) i ((plan_of (instance_of (held b)) plan.now).move i t))
        (up_to (instance_of (held b)).intervals)) (up_to (instance_of (held b)).trains) }
{
    (0..b.train_count).all(|i| train_fits(b, plan, i, counts[i]))
}

// 15: whether the bytes are a plan's.
pub fn plan_fits(b: Book, counts: Counts, plan: &[u8]) -> bool
    requires { Counted b counts }
    ensures { result ≡ plan_fits (instance_of (held b)) plan.now }
{
    let nodes = b.node_count;
    if plan.len() != plan_length(b) {
        return false;
    }
    all_below(&plan[0..nodes], 0, 2) && moves_fit(b, counts, plan)
}
