// The content of a book's frames: 5 to 9 for each kind, and what the frame adds to the book. Each `add_`
// takes a payload of its kind's length, and answers the book with what the frame adds, or the refusal.
// Assumes nothing.
ghost use Rattle.std.specs.Prelude.{◌≡◌, ◌&&◌, ◌+◌, ◌*◌, ◌≤◌, ◌<◌, T, eqb, ltb, length, drop};
ghost use Rattle.spec.specs.Runs as runs;
ghost use Rattle.spec.specs.Lists as lists;
ghost use Rattle.spec.specs.Frames as frames;
ghost use Rattle.spec.specs.Read as read;
ghost use Rattle.frames.specs.Framed.{format_of};
ghost use Rattle.spec.specs.Answers.{told};
ghost use Rattle.spec.specs.Held.{held, held_train, CountsFit, NumbersFit};
ghost use Rattle.reader.specs.Added.{added, Packed, CallsFew, NumbersOf};

use frames::bytes::{all_below, place_of};
use frames::{
    CallFrame, Format, FrameKind, HeadFrame, JoinFrame, NodeFrame, SegmentFrame, TrainFrame,
    UnbreakableFrame, pair, time, time_width, train_end,
};
use model::{
    Book, Call, Join, MAX_CALLS, MAX_INTERVALS, MAX_JOINS, MAX_NODES, MAX_REACH, MAX_SEGMENTS,
    MAX_TRAINS, MAX_TTD, OLD_INTERVALS, Refusal, Segment, Train,
};
use network::calls::calls_of;
use network::scans::{may_divide, some_has};
use network::track::{is_path, joined, length_in_segments, speed_in_segments, touches};

// The greatest T of a format.
fn most_intervals(format: Format) -> usize
    ensures { result ≡ (format_of format).greatest_t }
{
    match format {
        Format::Now => MAX_INTERVALS,
        Format::Old => OLD_INTERVALS,
    }
}

// Head: rs, rt at least 1; T 1 to the format's most.
pub fn add_head(format: Format, b: Book, p: &[u8]) -> Result<Book, Refusal>
    requires { Packed b × (length p.now ≡ frames.times_at frames.head_kind + (format_of format).time_width) }
    ensures { told result ≡ added (format_of format) frames.head_kind (held b) p.now }
{
    let metres = pair(p, 0);
    let seconds = pair(p, 2);
    let intervals = time(format, p, HeadFrame::TIMES_AT);
    let most = most_intervals(format);
    if metres < 1 || seconds < 1 || intervals < 1 || most < intervals {
        return Err(Refusal::WrongField);
    }
    let mut next = b;
    next.segment_metres = metres;
    next.interval_seconds = seconds;
    next.intervals = intervals;
    Ok(next)
}

// Node: border kind 0 to 3, at most 96.
pub fn add_node(b: Book, p: &[u8]) -> Result<Book, Refusal>
    requires { Packed b × (length p.now ≡ ⟦<NodeFrame as FrameKind>⟧.LEN) }
    ensures { (f : frames.Format) → told result ≡ added f frames.node_kind (held b) p.now }
{
    let at = b.node_count;
    if MAX_NODES <= at {
        return Err(Refusal::OverLimit);
    }
    let kind = p[0];
    if 3 < kind {
        return Err(Refusal::WrongField);
    }
    let mut next = b;
    next.nodes[at] = kind;
    next.node_count = at + 1;
    Ok(next)
}

// 6 of a Segment: two different nodes that were read, TTD 0 to 63.
fn segment_fits(b: Book, s: Segment) -> bool
    requires { CountsFit b }
    ensures { result ≡ read.segment_fits (held b) s }
{
    let a = usize::from(s.a);
    let e = usize::from(s.b);
    a < b.node_count && e < b.node_count && a != e && usize::from(s.ttd) <= MAX_TTD
}

// Segment: at most 64.
pub fn add_segment(b: Book, p: &[u8]) -> Result<Book, Refusal>
    requires { Packed b × (length p.now ≡ ⟦<SegmentFrame as FrameKind>⟧.LEN) }
    ensures { (f : frames.Format) → told result ≡ added f frames.segment_kind (held b) p.now }
{
    let at = b.segment_count;
    if MAX_SEGMENTS <= at {
        return Err(Refusal::OverLimit);
    }
    let s = Segment {
        a: p[0],
        b: p[1],
        ttd: p[2],
    };
    if !segment_fits(b, s) {
        return Err(Refusal::WrongField);
    }
    let mut next = b;
    next.segments[at] = s;
    next.segment_count = at + 1;
    Ok(next)
}

// 6 of a Join: a node, and two different segments that touch it.
fn join_fits(b: Book, j: Join) -> bool
    requires { CountsFit b }
    ensures { result ≡ read.join_fits (held b) j }
{
    let node = usize::from(j.node);
    let left = usize::from(j.left);
    let right = usize::from(j.right);
    if b.node_count <= node || b.segment_count <= left || b.segment_count <= right {
        return false;
    }
    left != right && touches(b.segments[left], node) && touches(b.segments[right], node)
}

// Join: at most 128, a pair at one node once.
pub fn add_join(b: Book, p: &[u8]) -> Result<Book, Refusal>
    requires { Packed b × (length p.now ≡ ⟦<JoinFrame as FrameKind>⟧.LEN) }
    ensures { (f : frames.Format) → told result ≡ added f frames.join_kind (held b) p.now }
{
    let at = b.join_count;
    if MAX_JOINS <= at {
        return Err(Refusal::OverLimit);
    }
    let j = Join {
        node: p[0],
        left: p[1],
        right: p[2],
    };
    if !join_fits(b, j) {
        return Err(Refusal::WrongField);
    }
    if joined(
        b,
        usize::from(j.node),
        usize::from(j.left),
        usize::from(j.right),
    ) {
        return Err(Refusal::WrongField);
    }
    let mut next = b;
    next.joins[at] = j;
    next.join_count = at + 1;
    Ok(next)
}

// 7: length and speed in segments are 1 to 8.
fn reach_fits(b: Book, t: Train) -> bool
    requires { NumbersFit b × (1 ≤ b.segment_metres) × (t.metres < 65536) × (t.speed < 65536) }
    ensures { result ≡ read.reach_fits (held b) (held_train t) }
{
    let l = length_in_segments(b, t);
    let k = speed_in_segments(b, t);
    1 <= l && l <= MAX_REACH && 1 <= k && k <= MAX_REACH
}

// 6 of a Call: a train and a segment that were read, first ≤ last ≤ T.
fn call_fits(b: Book, c: Call) -> bool
    requires { CountsFit b }
    ensures { result ≡ read.call_fits (held b) c }
{
    usize::from(c.train) < b.train_count
        && usize::from(c.segment) < b.segment_count
        && c.first <= c.last
        && c.last <= b.intervals
}

// Unbreakable TTD: one that some segment has, and that no border may divide. It adds nothing.
pub fn add_unbreakable(b: Book, p: &[u8]) -> Result<Book, Refusal>
    requires { Packed b × T (lists.all (read.segment_fits (held b)) (held b).segments) × (length p.now ≡ ⟦<UnbreakableFrame as FrameKind>⟧.LEN) }
    ensures { (f : frames.Format) → told result ≡ added f frames.unbreakable_kind (held b) p.now }
{
    let ttd = usize::from(p[0]);
    if !some_has(b, ttd) {
        return Err(Refusal::WrongField);
    }
    if may_divide(b, ttd) {
        return Err(Refusal::DivisibleTtd);
    }
    Ok(b)
}

// Call: one to four a train.
pub fn add_call(format: Format, b: Book, p: &[u8]) -> Result<Book, Refusal>
    requires { Packed b × CallsFew (held b) × (length p.now ≡ frames.times_at frames.call_kind + 2 * (format_of format).time_width) }
    ensures { told result ≡ added (format_of format) frames.call_kind (held b) p.now }
{
    let c = Call {
        train: p[0],
        segment: p[1],
        first: time(format, p, CallFrame::TIMES_AT),
        last: time(format, p, CallFrame::TIMES_AT + time_width(format)),
    };
    if MAX_CALLS <= calls_of(b, usize::from(c.train)) {
        return Err(Refusal::OverLimit);
    }
    if !call_fits(b, c) {
        return Err(Refusal::WrongField);
    }
    let at = b.call_count;
    let mut next = b;
    next.calls[at] = c;
    next.call_count = at + 1;
    Ok(next)
}

// 6 of a Train: at least one metre, a departure below T, and directed segments that were read.
fn train_fits(format: Format, b: Book, p: &[u8]) -> bool
    requires { CountsFit b × (frames.train_fixed (format_of format) ≤ length p.now) }
    ensures { result ≡ read.train_fits (held b) (read.train_in (format_of format) p.now) }
{
    1 <= pair(p, 0)
        && time(format, p, TrainFrame::TIMES_AT) < b.intervals
        && all_below(p, train_end(format, 0), 2 * b.segment_count)
}

// A Train's numbers, without its place.
fn train_numbers(format: Format, p: &[u8]) -> Train
    requires { frames.train_fixed (format_of format) ≤ length p.now }
    ensures { NumbersOf (format_of format) p.now result }
{
    Train {
        metres: pair(p, 0),
        speed: pair(p, 2),
        departure: time(format, p, TrainFrame::TIMES_AT),
        size: 0,
        place: [0u8; MAX_REACH],
    }
}

// 8: what stands behind a Train's fixed part is a path of l directed segments.
fn place_fits(b: Book, p: &[u8], fixed: usize, l: usize) -> bool
    requires { CountsFit b × (fixed ≤ length p.now) × (l ≤ read.max_reach)
        × T (lists.all (λ d. ltb d (2 * b.segment_count)) (drop fixed p.now)) }
    ensures { result ≡ (eqb (length (drop fixed p.now)) l && runs.is_path (held b) (drop fixed p.now)) }
{
    p.len() - fixed == l && is_path(b, place_of(p, fixed), l)
}

// Train: at most 8; its place, behind the fixed part, is a path of l directed segments.
pub fn add_train(format: Format, b: Book, p: &[u8]) -> Result<Book, Refusal>
    requires { Packed b × (1 ≤ b.segment_metres) × (frames.train_fixed (format_of format) ≤ length p.now) }
    ensures { told result ≡ added (format_of format) frames.train_kind (held b) p.now }
{
    let at = b.train_count;
    if MAX_TRAINS <= at {
        return Err(Refusal::OverLimit);
    }
    if !train_fits(format, b, p) {
        return Err(Refusal::WrongField);
    }
    let mut t = train_numbers(format, p);
    if !reach_fits(b, t) {
        return Err(Refusal::WrongReach);
    }
    let l = length_in_segments(b, t);
    let fixed = train_end(format, 0);
    if !place_fits(b, p, fixed, l) {
        return Err(Refusal::NoPath);
    }
    t.size = l;
    let place = place_of(p, fixed);
    t.place = place;
    let mut next = b;
    next.trains[at] = t;
    next.train_count = at + 1;
    Ok(next)
}
