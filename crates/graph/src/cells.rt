// What a line of a page is made of: the interval in three bytes, and a cell of nine bytes a train. Assumes
// nothing.
ghost use Rattle.std.specs.Prelude.{◌≡◌, ◌++◌, ◌+◌, ◌%◌, ◌<◌, T};
ghost use Rattle.spec.specs.Lists.{one};
ghost use Rattle.spec.specs.Numbers.{aligned};
ghost use Rattle.spec.specs.Instance.{instance_of};
ghost use Rattle.spec.specs.Plan.{is_move, plan_of, plan_fits};
ghost use Rattle.spec.specs.Page as pages;
ghost use Rattle.spec.specs.Held.{held};
ghost use Rattle.layout.specs.Moves.{held_move};
ghost use Rattle.plan_rules.specs.Kept.{TrainReady};
ghost use Rattle.tables.specs.Ready.{RunsReady};

use layout::moves::{Move, move_at};
use listing::TRAIN_BYTES;
use model::{Book, Counts};
use network::track::length_in_segments;
use tables::places::{size_of, start_of};

// How many bytes the interval and the blank behind it have, and a train's cell.
pub const HEAD_BYTES: usize = 4;

pub const CELL_BYTES: usize = 9;

// The last digit of a number.
fn digit(n: usize) -> u8
    ensures { result ≡ 48 + n % 10 }
{
    (n % 10) as u8 + 48
}

// An interval, right-aligned in three bytes, and a blank.
pub fn head_of(interval: usize) -> [u8; HEAD_BYTES]
    requires { interval < 1000 }
    ensures { result ≡ aligned 3 interval ++ one pages.blank }
{
    let ones = digit(interval);
    if interval < 10 {
        return [b' ', b' ', ones, b' '];
    }
    let tens = digit(interval / 10);
    if interval < 100 {
        return [b' ', tens, ones, b' '];
    }
    let hundreds = digit(interval / 100);
    [hundreds, tens, ones, b' ']
}

// A cell with a mark in its second byte.
fn marked(mark: u8) -> [u8; CELL_BYTES]
    ensures { result ≡ pages.marked mark }
{
    let mut cell = [b' '; CELL_BYTES];
    cell[1] = mark;
    cell
}

// The cell of a run: the rear segment at its start, the front segment at its end, and how many it moves.
fn run_cell(rear: usize, front: usize, moved: usize) -> [u8; CELL_BYTES]
    ensures { result ≡ pages.cell (pages.shown_run rear front moved) }
{
    let mut cell = [b' '; CELL_BYTES];
    cell[1] = digit(rear / 10);
    cell[2] = digit(rear);
    cell[3] = b'-';
    cell[4] = digit(front / 10);
    cell[5] = digit(front);
    cell[7] = digit(moved);
    cell
}

// The cell of a move of a train that is l segments long, by the table of its runs.
fn cell_of(b: Book, train: usize, l: usize, runs: &[u8], m: Move) -> [u8; CELL_BYTES]
    requires { TrainReady b train l runs.now × T (is_move (instance_of (held b)) train (held_move m)) }
    ensures { result ≡ pages.cell (pages.shown_move (instance_of (held b)) train (held_move m)) }
{
    match m {
        Move::Run(r) => {
            let first = start_of(r);
            let size = size_of(runs, r);
            let rear = usize::from(runs[first]) / 2;
            let front = usize::from(runs[first + size - 1]) / 2;
            run_cell(rear, front, size - l)
        }
        Move::Absent => marked(b'.'),
        Move::Gone => marked(b'*'),
    }
}

// The cell of a train in an interval of a plan, by the table of all runs.
pub fn cell_at(
    b: Book,
    counts: Counts,
    runs: &[u8],
    plan: &[u8],
    train: usize,
    interval: usize,
) -> [u8; CELL_BYTES]
    requires { RunsReady b counts runs.now × T (plan_fits (instance_of (held b)) plan.now) × (train < b.train_count) × (interval < b.intervals) }
    ensures { result ≡ pages.cell (pages.shown_of (instance_of (held b)) (plan_of (instance_of (held b)) plan.now) train interval) }
{
    let m = move_at(b, plan, train, interval);
    let l = length_in_segments(b, b.trains[train]);
    let part = train * TRAIN_BYTES;
    cell_of(b, train, l, &runs[part..part + TRAIN_BYTES], m)
}
