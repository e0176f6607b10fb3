// Reading a book: the frames in file order, each through its refusals by rising number, then the
// book's own. `read_book` is the entry point: it takes any bytes, and answers the book by value or one
// numbered refusal; `read_runs` leaves the trains' runs, which 11 counts, in a lent table; `read_as` does
// the same for a book of either format. Assumes nothing.
ghost use Rattle.std.specs.Prelude.{◌≡◌, ◌≢◌, not, ◌||◌, ◌-◌, ◌≤◌, ◌<◌, length, take, drop, T, ltb, IfOk, IfErr};
ghost use Rattle.std.proofs.Math.Option.{some};
ghost use Rattle.model.specs.Refusals.{number_of};
ghost use Rattle.spec.specs.Lists.{any, up_to, empty, first_fault};
ghost use Rattle.spec.specs.Book.{no_book, calls_of};
ghost use Rattle.spec.specs.BookFile.{FitsFields};
ghost use Rattle.spec.specs.Runs.{runs_of};
ghost use Rattle.spec.specs.Read.{growing, read_as, read_book, refuse_or, book_faults, max_runs};
ghost use Rattle.spec.specs.Answers.{told, accepted_as};
ghost use Rattle.spec.specs.Held.{held, packed, CountsFit};
ghost use Rattle.reader.specs.Added.{Packed};
ghost use Rattle.frames.specs.Framed.{format_of, kind_in};
ghost use Rattle.spec.specs.Reached.{Reached};
ghost use Rattle.listing.specs.Listed.{table_bytes, run_table, run_counts};
ghost use Rattle.reader.specs.BookAnswers.{read_of, added_found, stepped_at};

use crate::content::{
    add_call, add_head, add_join, add_node, add_segment, add_train, add_unbreakable,
};
use frames::{
    EndFrame, Format, FrameKind, JoinFrame, Kind, NodeFrame, OPENING, SegmentFrame,
    UnbreakableFrame, call_end, frame_at, head_end, kind_of, out_of_order, rank, train_end,
};
use listing::{TABLE_BYTES, list_trains};
use model::{
    Book, Call, Counts, Join, MAX_CALLS, MAX_JOINS, MAX_NODES, MAX_REACH, MAX_RUNS, MAX_SEGMENTS,
    MAX_TRAINS, Refusal, Segment, Train,
};
use network::calls::calls_of;

// A book that was read, with how many runs each of its trains has.
#[derive(Clone, Copy)]
pub struct ReadBook {
    pub book: Book,
    pub counts: Counts,
}

// The book before any frame.
fn empty_book() -> Book
    ensures { result ≡ packed no_book }
{
    Book {
        segment_metres: 0,
        interval_seconds: 0,
        intervals: 0,
        node_count: 0,
        segment_count: 0,
        join_count: 0,
        train_count: 0,
        call_count: 0,
        nodes: [0u8; MAX_NODES],
        segments: [Segment { a: 0, b: 0, ttd: 0 }; MAX_SEGMENTS],
        joins: [Join {
            node: 0,
            left: 0,
            right: 0,
        }; MAX_JOINS],
        trains: [Train {
            metres: 0,
            speed: 0,
            departure: 0,
            size: 0,
            place: [0u8; MAX_REACH],
        }; MAX_TRAINS],
        calls: [Call {
            train: 0,
            segment: 0,
            first: 0,
            last: 0,
        }; MAX_TRAINS * MAX_CALLS],
    }
}

// 4 to 9 of a frame whose payload stands from `at` up to `end`, by its kind, and the book after it. The
// kind's cursor says where its payload, or the part ahead of a Train's place, has to end: 4.
fn add_frame(
    format: Format,
    b: Book,
    kind: Kind,
    s: &[u8],
    at: usize,
    end: usize,
) -> Result<Book, Refusal>
    requires { Packed b × (at ≤ end) × (end ≤ length s.now) × (kind ≢ Kind.Head → T (growing (held b))) }
    ensures { told result ≡ added_found (format_of format) (held b) (some (kind_in kind)) (take (end - at) (drop at s.now)) }
{
    match kind {
        Kind::Head => {
            let to = head_end(format, at);
            if to != end {
                return Err(Refusal::PayloadLength);
            }
            add_head(format, b, &s[at..to])
        }
        Kind::Node => {
            let to = NodeFrame::cursor(at).end;
            if to != end {
                return Err(Refusal::PayloadLength);
            }
            add_node(b, &s[at..to])
        }
        Kind::Segment => {
            let to = SegmentFrame::cursor(at).end;
            if to != end {
                return Err(Refusal::PayloadLength);
            }
            add_segment(b, &s[at..to])
        }
        Kind::Join => {
            let to = JoinFrame::cursor(at).end;
            if to != end {
                return Err(Refusal::PayloadLength);
            }
            add_join(b, &s[at..to])
        }
        Kind::Train => {
            let fixed = train_end(format, at);
            if end < fixed || end != fixed + usize::from(s[fixed - 1]) {
                return Err(Refusal::PayloadLength);
            }
            add_train(format, b, &s[at..end])
        }
        Kind::Call => {
            let to = call_end(format, at);
            if to != end {
                return Err(Refusal::PayloadLength);
            }
            add_call(format, b, &s[at..to])
        }
        Kind::Unbreakable => {
            let to = UnbreakableFrame::cursor(at).end;
            if to != end {
                return Err(Refusal::PayloadLength);
            }
            add_unbreakable(b, &s[at..to])
        }
        Kind::End => {
            if EndFrame::cursor(at).end != end {
                return Err(Refusal::PayloadLength);
            }
            Ok(b)
        }
    }
}

// How far a book was read: the book so far, the rank of the last frame's kind (0 before the first), and where
// the next frame begins.
#[derive(Clone, Copy)]
pub struct Reading {
    pub book: Book,
    pub last: usize,
    pub at: usize,
}

// The frame where reading stands: 1 to 9, and how far the book is read after it, or nothing at its End.
fn step(format: Format, r: Reading, s: &[u8]) -> Result<Option<Reading>, Refusal>
    requires { Packed r.book × Reached (record { last = r.last; book = held r.book }) × (r.at ≤ length s.now) }
    ensures { told result ≡ stepped_at (format_of format) (record { last = r.last; book = held r.book }) (drop r.at s.now) r.at }
{
    let frame = frame_at(s, r.at).ok_or(Refusal::CutFrame)?;
    let kind = kind_of(frame.kind).ok_or(Refusal::UnknownKind)?;
    let start = r.at + OPENING;
    let end = start + frame.len;
    if out_of_order(r.last, frame.kind, s.len() - end) {
        return Err(Refusal::FrameOrder);
    }
    let book = add_frame(format, r.book, kind, s, start, end)?;
    if kind == Kind::End {
        return Ok(None);
    }
    Ok(Some(Reading {
        book,
        last: rank(frame.kind),
        at: end,
    }))
}

// 10: there is a train, and each has a call.
fn all_called(b: Book) -> bool
    requires { CountsFit b }
    ensures { result ≡ not (empty (held b).trains || any (λ i. empty (calls_of (held b) i)) (up_to (length (held b).trains))) }
{
    for i in 0..b.train_count {
        if calls_of(b, i) == 0 {
            return false;
        }
    }
    b.train_count != 0
}

// 11: no train has over 256 runs. The counts go as far as 257.
fn few_runs(b: Book, counts: Counts) -> bool
    requires { CountsFit b × (counts ≡ run_counts (held b)) }
    ensures { result ≡ not (any (λ t. ltb max_runs (length (runs_of (held b) t))) (held b).trains) }
{
    counts[..b.train_count].iter().all(|runs| *runs <= MAX_RUNS)
}

// The book's own refusals, 10 and 11, after its End. The runs that are counted for 11 are left in the
// table; beside 11 it is left free, beside 10 as it was.
fn finish(b: Book, runs: &mut [u8]) -> Result<ReadBook, Refusal>
    requires { Packed b × T (growing (held b)) × FitsFields (held b) × (length runs.old ≡ table_bytes) }
    ensures answer { told result ≡ accepted_as read_of (refuse_or (first_fault (book_faults (held b))) (held b)) }
    ensures ok { IfOk result (λ r. runs.new ≡ run_table (held r.book) runs.old) }
    ensures err { IfErr result (λ e. number_of e < 11 → runs.new ≡ runs.old) }
{
    if !all_called(b) {
        return Err(Refusal::NoCall);
    }
    let counts = list_trains(b, runs);
    if !few_runs(b, counts) {
        return Err(Refusal::OverRuns);
    }
    Ok(ReadBook { book: b, counts })
}

// The book that the bytes hold in a format, with its runs in the table, or one numbered refusal; beside 11
// the table is left free, beside another as it was.
pub fn read_as(format: Format, s: &[u8], runs: &mut [u8]) -> Result<ReadBook, Refusal>
    requires { length runs.old ≡ table_bytes }
    ensures answer { told result ≡ accepted_as read_of (read_as (format_of format) s.now) }
    ensures ok { IfOk result (λ r. runs.new ≡ run_table (held r.book) runs.old) }
    ensures err { IfErr result (λ e. number_of e < 11 → runs.new ≡ runs.old) }
{
    let mut reading = Reading {
        book: empty_book(),
        last: 0,
        at: 0,
    };
    // no `for`: each frame says where the next one begins
    while let Some(next) = step(format, reading, s)? {
        reading = next;
    }
    finish(reading.book, runs)
}

// The same in the format in force.
pub fn read_runs(s: &[u8], runs: &mut [u8]) -> Result<ReadBook, Refusal>
    requires { length runs.old ≡ table_bytes }
    ensures answer { told result ≡ accepted_as read_of (read_book s.now) }
    ensures ok { IfOk result (λ r. runs.new ≡ run_table (held r.book) runs.old) }
    ensures err { IfErr result (λ e. number_of e < 11 → runs.new ≡ runs.old) }
{
    read_as(Format::Now, s, runs)
}

// The entry point: the book that the bytes hold, or one numbered refusal.
pub fn read_book(s: &[u8]) -> Result<ReadBook, Refusal>
    ensures { told result ≡ accepted_as read_of (read_book s.now) }
{
    let mut runs = [0u8; TABLE_BYTES];
    read_runs(s, &mut runs)
}
