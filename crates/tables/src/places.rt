// Places of trains: what a run starts at and ends at, which run follows which, what a place contains,
// whether it serves a call, and who may leave. One function for each rule. Places lie in tables of
// directed segments; `runs` is a train's table of runs, as `listing::list_runs` fills it. Assumes nothing.
ghost use Rattle.std.specs.Prelude.{◌≡◌, ◌&&◌, ◌+◌, ◌*◌, ◌≤◌, ◌<◌, length};
ghost use Rattle.spec.specs.Lists.{same, last_or};
ghost use Rattle.spec.specs.Book.{goal_of};
ghost use Rattle.spec.specs.Runs as paths;
ghost use Rattle.spec.specs.Read.{max_reach, max_runs, between};
ghost use Rattle.spec.specs.Instance.{place_serves, may_leave};
ghost use Rattle.spec.specs.Held.{held, held_train};
ghost use Rattle.listing.specs.Listed.{run_segments, train_bytes, place_at, start_at};
ghost use Rattle.tables.specs.Placed.{size_at, end_at};
ghost use Rattle.tables.specs.Tables.{Passed};

use listing::ENTRY_BYTES;
use model::{Book, Call, Train};
use network::track::ends_at_exit;

// Where the directed segments of the run with a number begin: the place that the run starts at.
pub fn start_of(r: usize) -> usize
    requires { r < max_runs }
    ensures { result ≡ start_at r }
{
    r * ENTRY_BYTES + 1
}

// How many directed segments the run with a number has.
pub fn size_of(runs: &[u8], r: usize) -> usize
    requires { (r < max_runs) × (length runs.now ≡ train_bytes) }
    ensures { (result ≡ size_at runs.now r) × (result < 256) }
{
    usize::from(runs[r * ENTRY_BYTES])
}

// Where the last l directed segments of a run begin: the place that the run ends at.
pub fn end_of(runs: &[u8], r: usize, l: usize) -> usize
    requires { (r < max_runs) × (length runs.now ≡ train_bytes) × (l ≤ size_at runs.now r) }
    ensures { result ≡ end_at runs.now r l }
{
    start_of(r) + (size_of(runs, r) - l)
}

// Whether two places of l directed segments are the same.
pub fn same_places(table: &[u8], at: usize, others: &[u8], from: usize, l: usize) -> bool
    requires { (at + l ≤ length table.now) × (from + l ≤ length others.now) }
    ensures { result ≡ same (place_at table.now at l) (place_at others.now from l) }
{
    table[at..at + l] == others[from..from + l]
}

// Whether run q follows run r: it starts at the place that run r ends at.
pub fn follows(runs: &[u8], r: usize, q: usize, l: usize) -> bool
    requires { (length runs.now ≡ train_bytes) × (r < max_runs) × (q < max_runs) × (l ≤ size_at runs.now r) × (size_at runs.now r ≤ run_segments) }
    ensures { result ≡ same (place_at runs.now (end_at runs.now r l) l) (place_at runs.now (start_at q) l) }
{
    same_places(runs, end_of(runs, r, l), runs, start_of(q), l)
}

// Whether a place of l directed segments is the one that the train is given.
pub fn is_given(t: Train, table: &[u8], at: usize, l: usize) -> bool
    requires { (at + l ≤ length table.now) × (t.size ≤ max_reach) }
    ensures { result ≡ same (place_at table.now at l) (held_train t).place }
{
    let place = t.place;
    t.size == l && same_places(table, at, &place, 0, l)
}

// Whether a place of l directed segments contains the segment.
fn contains(table: &[u8], at: usize, l: usize, segment: usize) -> bool
    requires { at + l ≤ length table.now }
    ensures { result ≡ paths.contains (place_at table.now at l) segment }
{
    table[at..at + l]
        .iter()
        .any(|d| segment == usize::from(*d) / 2)
}

// Whether a place of l directed segments serves the call.
pub fn serves(b: Book, c: Call, table: &[u8], at: usize, l: usize) -> bool
    requires { at + l ≤ length table.now }
    ensures { result ≡ place_serves (held b) c (place_at table.now at l) }
{
    contains(table, at, l, usize::from(c.segment))
}

// Whether the place that the train is given serves the call.
fn given_serves(b: Book, c: Call, t: Train) -> bool
    requires { t.size ≤ max_reach }
    ensures { result ≡ place_serves (held b) c (held_train t).place }
{
    let place = t.place;
    serves(b, c, &place, 0, t.size)
}

// Whether the time is in the call's window.
pub fn in_window(c: Call, time: usize) -> bool
    ensures { result ≡ between c.first c.last time }
{
    c.first <= time && time <= c.last
}

// Whether the call is served at the train's departure: its window is open then, and the place that the
// train is given serves it.
pub fn served_at_departure(b: Book, c: Call, t: Train) -> bool
    requires { t.size ≤ max_reach }
    ensures { result ≡ (between c.first c.last t.departure && place_serves (held b) c (held_train t).place) }
{
    in_window(c, t.departure) && given_serves(b, c, t)
}

// Whether a train with this goal that ends at a place of l directed segments may be gone after that: the
// place serves the goal, and its last directed segment, the front, ends at an exit. The train's number is
// for the contract, which ties the goal to it.
pub fn may_leave(b: Book, train: usize, to: Call, table: &[u8], at: usize, l: usize) -> bool
    requires { Passed b × (to ≡ goal_of (held b) train) × (1 ≤ l) × (at + l ≤ length table.now)
        × (last_or 0 (place_at table.now at l) < 2 * b.segment_count) }
    ensures { result ≡ may_leave (held b) train (place_at table.now at l) }
{
    serves(b, to, table, at, l) && ends_at_exit(b, usize::from(table[at + l - 1]))
}
