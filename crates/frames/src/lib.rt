// Frames: the number and the payload length of each kind, the numbers in a file, and the frame at a
// place of a file. Each kind is a type with the trait `FrameKind`: its associated constants are its number
// and the length of its payload, and the constructor `cursor` gives the stretch of a file that the payload's
// fixed part takes. The Head, Train and Call of an old book have other lengths, so they are types of their
// own. A time is the Head's T, a train's departure, a call's first or last. Assumes nothing.
#![tactic(auto)]

pub mod bytes;

ghost use Rattle.std.specs.Prelude.{◌≡◌, ℕ, ◌+◌, ◌*◌, ◌≤◌, ◌<◌, length, drop};
ghost use Rattle.spec.specs.Frames as frames;
ghost use Rattle.spec.specs.Lists.{one, ◌when◌, first_fault};
ghost use Rattle.spec.specs.Numbers.{field};
ghost use Rattle.frames.specs.Framed.{format_of, framed_at, framed_refusal, kind_said, out_of_order_by};

// How many bytes a frame has ahead of its payload: the payload's length and the kind.
pub const OPENING: usize = 4;

// How many bytes a literal or a hint has.
pub const NUMBER: usize = 4;

// The formats of book files: the one in force, and the one before it, which is still read to be rewritten.
#[derive(Clone, Copy)]
pub enum Format {
    Now,
    Old,
}

// How many bytes a time has, and had in an old book.
pub const TIME: usize = 2;

pub const OLD_TIME: usize = 1;

// How many bytes a time has in a format.
pub fn time_width(format: Format) -> usize
    ensures { result ≡ (format_of format).time_width }
{
    match format {
        Format::Now => TIME,
        Format::Old => OLD_TIME,
    }
}

// The stretch of a file from `at` up to `end`.
#[derive(Clone, Copy)]
pub struct Cursor {
    pub at: usize,
    pub end: usize,
}

// A kind of frame: its number, and the length of its payload or of the payload's fixed part, which proofs
// know by the same name.
pub trait FrameKind {
    ghost LEN: { ℕ };

    const KIND: usize;

    const LEN: usize;

    // The stretch of the payload, or of its fixed part, from the payload's place on.
    fn cursor(at: usize) -> Cursor
        requires { at + LEN < 0x1_0000_0000_0000_0000 }
        ensures { (result.at ≡ at) × (result.end ≡ at + LEN) }
    {
        Cursor {
            at,
            end: at + Self::LEN,
        }
    }
}

#[derive(Clone, Copy)]
pub struct HeadFrame {}

impl HeadFrame {
    // Where T stands.
    pub const TIMES_AT: usize = 4;
}

impl FrameKind for HeadFrame {
    ghost LEN = { frames.times_at frames.head_kind + frames.book_format.time_width };

    const KIND: usize = 1;

    const LEN: usize = HeadFrame::TIMES_AT + TIME;
}

#[derive(Clone, Copy)]
pub struct NodeFrame {}

impl FrameKind for NodeFrame {
    ghost LEN = { 1 };

    const KIND: usize = 2;

    const LEN: usize = 1;
}

#[derive(Clone, Copy)]
pub struct SegmentFrame {}

impl FrameKind for SegmentFrame {
    ghost LEN = { 3 };

    const KIND: usize = 3;

    const LEN: usize = 3;
}

#[derive(Clone, Copy)]
pub struct JoinFrame {}

impl FrameKind for JoinFrame {
    ghost LEN = { 3 };

    const KIND: usize = 4;

    const LEN: usize = 3;
}

// LEN is the fixed part; n directed segments stand behind it.
#[derive(Clone, Copy)]
pub struct TrainFrame {}

impl TrainFrame {
    // Where the departure stands.
    pub const TIMES_AT: usize = 4;
}

impl FrameKind for TrainFrame {
    ghost LEN = { frames.train_fixed frames.book_format };

    const KIND: usize = 5;

    const LEN: usize = TrainFrame::TIMES_AT + TIME + 1;
}

#[derive(Clone, Copy)]
pub struct CallFrame {}

impl CallFrame {
    // Where first and last stand.
    pub const TIMES_AT: usize = 2;
}

impl FrameKind for CallFrame {
    ghost LEN = { frames.times_at frames.call_kind + 2 * frames.book_format.time_width };

    const KIND: usize = 6;

    const LEN: usize = CallFrame::TIMES_AT + 2 * TIME;
}

#[derive(Clone, Copy)]
pub struct UnbreakableFrame {}

impl FrameKind for UnbreakableFrame {
    ghost LEN = { 1 };

    const KIND: usize = 7;

    const LEN: usize = 1;
}

#[derive(Clone, Copy)]
pub struct EndFrame {}

impl FrameKind for EndFrame {
    ghost LEN = { 0 };

    const KIND: usize = 8;

    const LEN: usize = 0;
}

// The Head of an old book.
#[derive(Clone, Copy)]
pub struct OldHeadFrame {}

impl FrameKind for OldHeadFrame {
    ghost LEN = { frames.times_at frames.head_kind + frames.old_format.time_width };

    const KIND: usize = HeadFrame::KIND;

    const LEN: usize = HeadFrame::TIMES_AT + OLD_TIME;
}

// A Train of an old book.
#[derive(Clone, Copy)]
pub struct OldTrainFrame {}

impl FrameKind for OldTrainFrame {
    ghost LEN = { frames.train_fixed frames.old_format };

    const KIND: usize = TrainFrame::KIND;

    const LEN: usize = TrainFrame::TIMES_AT + OLD_TIME + 1;
}

// A Call of an old book.
#[derive(Clone, Copy)]
pub struct OldCallFrame {}

impl FrameKind for OldCallFrame {
    ghost LEN = { frames.times_at frames.call_kind + 2 * frames.old_format.time_width };

    const KIND: usize = CallFrame::KIND;

    const LEN: usize = CallFrame::TIMES_AT + 2 * OLD_TIME;
}

// Where a Head's payload ends that begins at a place, by its format.
pub fn head_end(format: Format, at: usize) -> usize
    requires { at < 0x8000_0000_0000_0000 }
    ensures { result ≡ at + (frames.times_at frames.head_kind + (format_of format).time_width) }
{
    match format {
        Format::Now => HeadFrame::cursor(at).end,
        Format::Old => OldHeadFrame::cursor(at).end,
    }
}

// Where a Train's fixed part ends.
pub fn train_end(format: Format, at: usize) -> usize
    requires { at < 0x8000_0000_0000_0000 }
    ensures { result ≡ at + frames.train_fixed (format_of format) }
{
    match format {
        Format::Now => TrainFrame::cursor(at).end,
        Format::Old => OldTrainFrame::cursor(at).end,
    }
}

// Where a Call's payload ends.
pub fn call_end(format: Format, at: usize) -> usize
    requires { at < 0x8000_0000_0000_0000 }
    ensures { result ≡ at + (frames.times_at frames.call_kind + 2 * (format_of format).time_width) }
{
    match format {
        Format::Now => CallFrame::cursor(at).end,
        Format::Old => OldCallFrame::cursor(at).end,
    }
}

// A step of a refutation. LEN is the fixed part; the literals and the hints stand behind it.
#[derive(Clone, Copy)]
pub struct StepFrame {}

impl FrameKind for StepFrame {
    ghost LEN = { frames.step_fixed };

    const KIND: usize = 20;

    const LEN: usize = 2;
}

// The number in the two bytes from `at` on.
pub fn pair(s: &[u8], at: usize) -> usize
    requires { at + 2 ≤ length s.now }
    ensures { (result ≡ field s.now at 2) × (result < 65536) }
{
    let low = s[at] as usize;
    let high = s[at + 1] as usize;
    low + 256 * high
}

// The time at a place of a payload, in as many bytes as its format has for it.
pub fn time(format: Format, s: &[u8], at: usize) -> usize
    requires { at + (format_of format).time_width ≤ length s.now }
    ensures { (result ≡ field s.now at (format_of format).time_width) × (result < 65536) }
{
    match format {
        Format::Now => pair(s, at),
        Format::Old => s[at] as usize,
    }
}

// A whole frame of a file: its kind's number, and its payload's length.
#[derive(Clone, Copy, Debug, PartialEq, Eq)]
pub struct Frame {
    pub kind: usize,
    pub len: usize,
}

// The whole frame at a place. Where there is none, the frame is refused by the number n that its file's
// table gives a cut one: 1 in a book, 17 in a refutation.
pub fn frame_at(s: &[u8], at: usize) -> Option<Frame>
    requires { at ≤ length s.now }
    ensures found { result ≡ framed_at (drop at s.now) }
    ensures refusal { (n : ℕ) → framed_refusal n result ≡ first_fault (one (n when frames.cut_short (drop at s.now))) }
{
    if s.len() - at < OPENING {
        return None;
    }
    let len = pair(s, at);
    let kind = pair(s, at + 2);
    if s.len() - at - OPENING < len {
        None
    } else {
        Some(Frame { kind, len })
    }
}

// The kinds of a book's frames, in their order.
#[derive(Clone, Copy, Debug, PartialEq, Eq, PartialOrd, Ord)]
pub enum Kind {
    Head,
    Node,
    Segment,
    Join,
    Train,
    Call,
    Unbreakable,
    End,
}

// The kind that a number says.
pub fn kind_of(number: usize) -> Option<Kind>
    ensures { result ≡ kind_said (frames.find_kind number frames.kind_order) }
{
    match number {
        HeadFrame::KIND => Some(Kind::Head),
        NodeFrame::KIND => Some(Kind::Node),
        SegmentFrame::KIND => Some(Kind::Segment),
        JoinFrame::KIND => Some(Kind::Join),
        TrainFrame::KIND => Some(Kind::Train),
        CallFrame::KIND => Some(Kind::Call),
        UnbreakableFrame::KIND => Some(Kind::Unbreakable),
        EndFrame::KIND => Some(Kind::End),
        _ => None,
    }
}

// What `rank` answers for a number that is no kind's: the definition of `rank` puts it behind them all.
pub const NO_RANK: usize = 9;

// The place of a kind's number in the order of kinds, from 1, or NO_RANK.
pub fn rank(number: usize) -> usize
    ensures { result ≡ frames.rank number }
{
    match kind_of(number) {
        Some(kind) => kind as usize + 1,
        None => NO_RANK,
    }
}

// 3: whether a frame is out of order, after a kind's rank (0 before the first frame) and with so many
// bytes behind it: the first frame is no Head, a Head stands later, the kind has gone down, or bytes
// stand after End.
pub fn out_of_order(last: usize, kind: usize, left: usize) -> bool
    ensures { result ≡ out_of_order_by last kind left }
{
    if last == 0 {
        if kind != HeadFrame::KIND {
            return true;
        }
    } else {
        if kind == HeadFrame::KIND {
            return true;
        }
    }
    let place = rank(kind);
    let goes_down = place < last;
    goes_down || kind == EndFrame::KIND && left != 0
}
