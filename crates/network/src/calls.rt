// A train's calls: how many there are, the one with a number, and the goal. Assumes nothing.
ghost use Rattle.std.specs.Prelude.{◌≡◌, ◌≤◌, length};
ghost use Rattle.spec.specs.Book as book;
ghost use Rattle.spec.specs.Instance.{call_at};
ghost use Rattle.spec.specs.Held.{held, CountsFit};

use model::{Book, Call};

// What stands for a call where there is none: zeros.
const NO_CALL: Call = Call {
    train: 0,
    segment: 0,
    first: 0,
    last: 0,
};

// How many calls a train has.
pub fn calls_of(b: Book, train: usize) -> usize
    requires { CountsFit b }
    ensures { (result ≡ length (book.calls_of (held b) train)) × (result ≤ b.call_count) }
{
    b.calls[..b.call_count]
        .iter()
        .filter(|c| usize::from(c.train) == train)
        .count()
}

// A train's call with a number, in file order, or zeros where there is none.
pub fn call_at(b: Book, train: usize, number: usize) -> Call
    requires { CountsFit b }
    ensures { result ≡ call_at (held b) train number }
{
    b.calls[..b.call_count]
        .iter()
        .filter(|c| usize::from(c.train) == train)
        .nth(number)
        .copied()
        .unwrap_or(NO_CALL)
}

// A train's goal: its last call in the file, or zeros where it has none.
pub fn goal(b: Book, train: usize) -> Call
    requires { CountsFit b }
    ensures { result ≡ book.goal_of (held b) train }
{
    b.calls[..b.call_count]
        .iter()
        .filter(|c| usize::from(c.train) == train)
        .last()
        .copied()
        .unwrap_or(NO_CALL)
}
