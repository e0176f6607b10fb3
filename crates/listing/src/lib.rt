// Run lists. A train's runs are listed by rising number of segments and, within that, in dictionary
// order, each path extended one segment at a time, every length by one recursion. They are kept in a lent
// table, an entry a run, so that a run is found by its number at once; at most 256 are kept, and the
// listing stops at the 257th. A table that is filled once a book has the successors of each directed
// segment, its fan. Assumes nothing.
#![tactic(auto)]

ghost use Rattle.std.specs.Prelude.{◌≡◌, ◌++◌, map, ℕ, ◌+◌, ◌*◌, ◌≤◌, ◌<◌, length, T};
ghost use Rattle.std.proofs.lemmas.List.Edits.{sets};
ghost use Rattle.spec.specs.Lists.{one, has, last_or};
ghost use Rattle.spec.specs.Book as book;
ghost use Rattle.spec.specs.Runs.{runs_of};
ghost use Rattle.spec.specs.BookFile.{FitsFields};
ghost use Rattle.spec.specs.Read.{max_runs, reach_fits, growing};
ghost use Rattle.spec.specs.Held.{held, held_train, CountsFit, NumbersFit};
ghost use Rattle.listing.specs.Listed.{path_of, packed_path, successors, successor_table, fan_widths, SuccessorsHeld, Covered};
ghost use Rattle.listing.specs.Listed.{run_segments, fan_bytes, successor_bytes, train_bytes, table_bytes, runs_after, count_after, run_table, run_counts};
ghost use Rattle.listing.specs.Listed.{extend_by, paths_by, place_in, places_in, PlacesCovered, longer_by, further_by};

use frames::bytes::wide;
use model::{Book, Counts, MAX_REACH, MAX_RUNS, MAX_SEGMENTS, MAX_TRAINS, Train};
use network::track::{end_node, join_among, length_in_segments, speed_in_segments, start_in};

// A run has at most l + k segments.
const RUN_SEGMENTS: usize = 2 * MAX_REACH;

// The bytes of a run's entry: how many directed segments it has, then these, zeros behind.
pub const ENTRY_BYTES: usize = 1 + RUN_SEGMENTS;

// The bytes of a train's entries, and of all trains'.
pub const TRAIN_BYTES: usize = MAX_RUNS * ENTRY_BYTES;

pub const TABLE_BYTES: usize = MAX_TRAINS * TRAIN_BYTES;

// A directed segment has at most as many successors as there are directed segments: the bytes of its fan,
// and of the table.
pub const FAN_BYTES: usize = 2 * MAX_SEGMENTS;

pub const SUCCESSOR_BYTES: usize = FAN_BYTES * FAN_BYTES;

// The listing stops at this count: one more than are kept.
const STOP: usize = MAX_RUNS + 1;

// A path by value: its first n directed segments, zeros behind.
#[derive(Clone, Copy, Debug, PartialEq, Eq)]
pub struct Path {
    pub at: [u8; RUN_SEGMENTS],
    pub n: usize,
}

// Writes the successors of d, its fan, into the table; answers how many they are.
fn fill_fan(b: Book, d: usize, table: &mut [u8]) -> usize
    requires { CountsFit b × (d < 2 * b.segment_count) × (length table.old ≡ successor_bytes) }
    ensures { (result ≡ length (successors (held b) d)) × (result ≤ fan_bytes)
        × (table.new ≡ sets table.old (d * fan_bytes) (successors (held b) d)) }
{
    let node = end_node(b, d);
    let joins = b.joins;
    let count = b.join_count;
    let base = d * FAN_BYTES;
    let mut found = 0;
    for e in 0..2 * b.segment_count {
        let s = b.segments[e / 2];
        if start_in(s, e) == node && join_among(joins, count, node, d / 2, e / 2) {
            table[base + found] = e as u8;
            found += 1;
        }
    }
    found
}

// Writes the fans of the book's directed segments, and how wide each is.
pub fn fill_successors(b: Book, table: &mut [u8], widths: &mut [u8])
    requires { CountsFit b × (length table.old ≡ successor_bytes) × (length widths.old ≡ fan_bytes) }
    ensures { (table.new ≡ successor_table (held b) (2 * b.segment_count) table.old)
        × (widths.new ≡ sets widths.old 0 (fan_widths (held b) (2 * b.segment_count))) }
{
    for d in 0..2 * b.segment_count {
        widths[d] = fill_fan(b, d, table) as u8;
    }
}

// Whether a path has a directed segment on the segment.
fn uses(path: Path, segment: usize) -> bool
    requires { path.n ≤ run_segments }
    ensures { result ≡ has segment (map book.segment_of (path_of path)) }
{
    path.at[..path.n]
        .iter()
        .any(|d| segment == usize::from(*d) / 2)
}

// The last directed segment of a path.
fn last_of(path: Path) -> usize
    requires { (1 ≤ path.n) × (path.n ≤ run_segments) }
    ensures { result ≡ last_or 0 (path_of path) }
{
    usize::from(path.at[path.n - 1])
}

// The path with one more directed segment.
fn pushed(path: Path, d: usize) -> Path
    requires { (path ≡ packed_path (path_of path)) × (path.n < run_segments) × (d < fan_bytes) }
    ensures { result ≡ packed_path (path_of path ++ one d) }
{
    let at = path.n;
    let mut next = path;
    next.at[at] = d as u8;
    next.n = at + 1;
    next
}

// Keeps a run behind the first `count`, where there is room for it.
fn keep(runs: &mut [u8], count: usize, path: Path)
    requires { (length runs.old ≡ train_bytes) × (count ≤ max_runs) × (path ≡ packed_path (path_of path)) × (path.n ≤ run_segments) }
    ensures { runs.new ≡ runs_after count (one (path_of path)) runs.old }
{
    if count < MAX_RUNS {
        let base = count * ENTRY_BYTES;
        runs[base] = path.n as u8;
        runs[base + 1..base + ENTRY_BYTES].copy_from_slice(&path.at);
    }
}

// The first l segments of the run with a number, as a path by value.
fn path_at(runs: &[u8], r: usize, l: usize) -> Path
    requires { (length runs.now ≡ train_bytes) × (r < max_runs) × (l ≤ run_segments) }
    ensures { result ≡ packed_path (place_in runs.now l r) }
{
    let base = r * ENTRY_BYTES + 1;
    let mut at = [0u8; RUN_SEGMENTS];
    at[..l].copy_from_slice(&runs[base..base + l]);
    Path { at, n: l }
}

// Lists the paths that extend a path by `missing` segments, in dictionary order, behind the first
// `count`; answers how many runs there are then, as far as 257. `missing` falls at each call.
fn extend(
    table: &[u8],
    widths: &[u8],
    runs: &mut [u8],
    count: usize,
    path: Path,
    missing: usize,
) -> usize
    requires { Covered table.now widths.now (last_or 0 (path_of path)) × (length runs.old ≡ train_bytes)
        × (count ≤ max_runs) × (path ≡ packed_path (path_of path)) × (1 ≤ path.n) × (path.n + missing ≤ run_segments) }
    ensures { (result ≡ count_after count (extend_by table.now widths.now missing (path_of path)))
        × (runs.new ≡ runs_after count (extend_by table.now widths.now missing (path_of path)) runs.old) }
{
    if missing == 0 {
        keep(runs, count, path);
        return count + 1;
    }
    let last = last_of(path);
    // The run listing's recursion is a form of document 01; its loop, and `wide` in it, stay with the proof of that form.
    let width = wide(widths[last]);
    let base = last * FAN_BYTES;
    let mut found = count;
    let mut i = 0;
    while i < width && found < STOP {
        let d = wide(table[base + i]);
        if !uses(path, d / 2) {
            found = extend(table, widths, runs, found, pushed(path, d), missing - 1);
        }
        i += 1;
    }
    found
}

// Lists the paths of `size` segments; answers how many there are, as far as 257.
fn list_paths(table: &[u8], widths: &[u8], directed: usize, runs: &mut [u8], size: usize) -> usize
    requires { ((d : ℕ) → d < directed → Covered table.now widths.now d) × (length runs.old ≡ train_bytes)
        × (directed ≤ fan_bytes) × (1 ≤ size) × (size ≤ run_segments) }
    ensures { (result ≡ count_after 0 (paths_by table.now widths.now directed size))
        × (runs.new ≡ runs_after 0 (paths_by table.now widths.now directed size) runs.old) }
{
    let mut found = 0;
    for d in 0..directed {
        if found == STOP {
            break;
        }
        let mut path = Path {
            at: [0u8; RUN_SEGMENTS],
            n: 1,
        };
        path.at[0] = d as u8;
        found = extend(table, widths, runs, found, path, size - 1);
    }
    found
}

// Lists the paths that extend the places, the first runs in the table, of l segments each, by `missing`
// segments, behind the first `count`; answers how many runs there are then, as far as 257. The places
// stand in dictionary order, so these paths do. What is written stands behind what is read.
fn list_longer(
    table: &[u8],
    widths: &[u8],
    runs: &mut [u8],
    places: usize,
    count: usize,
    l: usize,
    missing: usize,
) -> usize
    requires { (length runs.old ≡ train_bytes) × (places ≤ count) × (count ≤ max_runs + 1) × (1 ≤ l)
        × (l + missing ≤ run_segments) × PlacesCovered table.now widths.now runs.old l places }
    ensures { (result ≡ count_after count
        (longer_by table.now widths.now (places_in runs.old l places) missing))
        × (runs.new ≡ runs_after count
        (longer_by table.now widths.now (places_in runs.old l places) missing) runs.old) }
{
    let mut found = count;
    for place in 0..places {
        if found == STOP {
            break;
        }
        let path = path_at(runs, place, l);
        found = extend(table, widths, runs, found, path, missing);
    }
    found
}

// Lists the paths that extend the places, of l segments each, by 1 to k segments, behind them; answers
// how many runs there are then, as far as 257. So no path shorter than l is walked again, and what a
// listing passes through are runs that were listed before it.
fn list_further(
    table: &[u8],
    widths: &[u8],
    runs: &mut [u8],
    places: usize,
    l: usize,
    k: usize,
) -> usize
    requires { (length runs.old ≡ train_bytes) × (places ≤ max_runs + 1) × (1 ≤ l) × (l + k ≤ run_segments)
        × PlacesCovered table.now widths.now runs.old l places }
    ensures { (result ≡ count_after places
        (further_by table.now widths.now (places_in runs.old l places) k))
        × (runs.new ≡ runs_after places
        (further_by table.now widths.now (places_in runs.old l places) k) runs.old) }
{
    let mut found = places;
    for j in 0..k {
        found = list_longer(table, widths, runs, places, found, l, j + 1);
    }
    found
}

// Lists a train's runs: the paths of l segments, which are its places, then those of l + 1, .. l + k.
// The tables hold the successors of the book's directed segments. Answers how many runs there are, as
// far as 257.
pub fn list_runs(b: Book, t: Train, table: &[u8], widths: &[u8], runs: &mut [u8]) -> usize
    requires { CountsFit b × NumbersFit b × (1 ≤ b.segment_metres) × (t.metres < 65536) × (t.speed < 65536)
        × T (reach_fits (held b) (held_train t))
        × SuccessorsHeld (held b) table.now widths.now × (length runs.old ≡ train_bytes) }
    ensures { (result ≡ count_after 0 (runs_of (held b) (held_train t)))
        × (runs.new ≡ runs_after 0 (runs_of (held b) (held_train t)) runs.old) }
{
    let l = length_in_segments(b, t);
    let k = speed_in_segments(b, t);
    let directed = 2 * b.segment_count;
    let places = list_paths(table, widths, directed, runs, l);
    list_further(table, widths, runs, places, l, k)
}

// Lists the runs of every train, each in its part of the table; answers how many each has, as far as
// 257. The successors are listed first, once for all trains.
pub fn list_trains(b: Book, runs: &mut [u8]) -> Counts
    requires { CountsFit b × NumbersFit b × T (growing (held b)) × FitsFields (held b) × (length runs.old ≡ table_bytes) }
    ensures { (result ≡ run_counts (held b)) × (runs.new ≡ run_table (held b) runs.old) }
{
    let mut table = [0u8; SUCCESSOR_BYTES];
    let mut widths = [0u8; FAN_BYTES];
    fill_successors(b, &mut table, &mut widths);
    let mut counts = [0usize; MAX_TRAINS];
    for (i, t) in b.trains[..b.train_count].iter().enumerate() {
        let at = i * TRAIN_BYTES;
        counts[i] = list_runs(b, *t, &table, &widths, &mut runs[at..at + TRAIN_BYTES]);
    }
    counts
}
