// Rewriting an old book in the format in force: the same frames in the same order, with their times
// widened and every other field as it was. `upgrade_book` is the entry point: it takes any bytes as an old
// book, and answers how long the new one is that it wrote, or one numbered refusal, with the output as it
// was. Assumes nothing.
#![tactic(auto)]

ghost use Rattle.std.specs.Prelude.{◌≡◌, ◌+◌, ◌≤◌, ◌<◌, length};
ghost use Rattle.std.proofs.Math.Option.{Option, some};
ghost use Rattle.std.proofs.lemmas.List.Edits.{sets};
ghost use Rattle.spec.specs.Lists.{accepted};
ghost use Rattle.spec.specs.Frames as frames;
ghost use Rattle.spec.specs.Read.{read_as};
ghost use Rattle.spec.specs.Answers.{told, accepted_as};
ghost use Rattle.spec.specs.Held.{held};
ghost use Rattle.spec.specs.Upgrade.{widened_at, widened_found, upgraded, upgrade_book, upgrade_output};
ghost use Rattle.demands.specs.OldFrames.{HasTimes};
ghost use Rattle.reader.specs.Added.{Packed};
ghost use Rattle.upgrading.specs.Widened.{times_in, book_times};

use frames::bytes::{put_bytes, put_pair};
use frames::{
    CallFrame, Format, HeadFrame, Kind, OLD_TIME, OPENING, TIME, TrainFrame, frame_at, kind_of,
    time,
};
use listing::TABLE_BYTES;
use model::{Book, Refusal};
use reader::reading::read_as;

// Where the times of a payload stand, and how many there are.
#[derive(Clone, Copy)]
pub struct Times {
    pub at: usize,
    pub count: usize,
}

// Those of a kind with this number, if it is one.
fn times_of(number: usize) -> Times
    ensures { result ≡ times_in (frames.find_kind number frames.kind_order) }
{
    match kind_of(number) {
        Some(Kind::Head) => Times {
            at: HeadFrame::TIMES_AT,
            count: 1,
        },
        Some(Kind::Train) => Times {
            at: TrainFrame::TIMES_AT,
            count: 1,
        },
        Some(Kind::Call) => Times {
            at: CallFrame::TIMES_AT,
            count: 2,
        },
        _ => Times { at: 0, count: 0 },
    }
}

// Writes an old payload, its times widened, from `to` on.
fn put_payload(times: Times, p: &[u8], new: &mut [u8], to: usize)
    requires { (times.at + times.count ≤ length p.now) × (to + (length p.now + times.count) ≤ length new.old) }
    ensures { new.new ≡ sets new.old to (widened_at p.now times.at times.count) }
{
    let first = times.at;
    let n = times.count;
    let mut end = put_bytes(new, to, &p[..first]);
    for i in 0..n {
        put_pair(new, end, time(Format::Old, p, first + OLD_TIME * i));
        end += TIME;
    }
    put_bytes(new, end, &p[first + OLD_TIME * n..]);
}

// Writes the frame of an old payload, its times widened, from `to` on; answers where it ends.
fn put_frame(kind: usize, p: &[u8], new: &mut [u8], to: usize) -> usize
    requires { (kind < 65536)
        × ((k : frames.Kind) × (frames.find_kind kind frames.kind_order ≡ some k) × HasTimes k p.now)
        × (to + length (frames.frame kind (widened_found (frames.find_kind kind frames.kind_order) p.now)) ≤ length new.old) }
    ensures { (result ≡ to + length (frames.frame kind (widened_found (frames.find_kind kind frames.kind_order) p.now)))
        × (new.new ≡ sets new.old to (frames.frame kind (widened_found (frames.find_kind kind frames.kind_order) p.now))) }
{
    let times = times_of(kind);
    let len = p.len() + times.count * (TIME - OLD_TIME);
    put_pair(new, to, len);
    put_pair(new, to + 2, kind);
    put_payload(times, p, new, to + OPENING);
    to + OPENING + len
}

// Writes the frames of an old book that was read, one behind the other: each tells by its length where the next begins.
fn put_frames(old: &[u8], new: &mut [u8])
    requires { ((b : Book) × (read_as frames.old_format old.now ≡ accepted (held b))) × (length (upgraded old.now) ≤ length new.old) }
    ensures { new.new ≡ sets new.old 0 (upgraded old.now) }
{
    let mut at = 0;
    let mut to = 0;
    while let Some(frame) = frame_at(old, at) {
        let start = at + OPENING;
        at = start + frame.len;
        to = put_frame(frame.kind, &old[start..at], new, to);
    }
}

// How many times a book has: T, each train's departure, and each call's first and last.
fn book_times(b: Book) -> usize
    requires { Packed b }
    ensures { (result ≡ book_times (held b)) × (result ≤ 73) }
{
    1 + b.train_count + 2 * b.call_count
}

// An entry point: an old book rewritten in the format in force; answers how many bytes were written.
pub fn upgrade_book(old: &[u8], new: &mut [u8]) -> Result<usize, Refusal>
    ensures answer { told result ≡ accepted_as length (upgrade_book old.now (length new.old)) }
    ensures output { new.new ≡ upgrade_output old.now new.old }
{
    let mut runs = [0u8; TABLE_BYTES];
    let read = read_as(Format::Old, old, &mut runs)?;
    let n = old.len() + book_times(read.book) * (TIME - OLD_TIME);
    if new.len() < n {
        return Err(Refusal::NoRoom);
    }
    put_frames(old, new);
    Ok(n)
}
