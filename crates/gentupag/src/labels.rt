// The sections of a book's segments under a set of borders. Assumes nothing.
ghost use Rattle.std.specs.Prelude.{◌≡◌, ℕ, ◌≤◌, ◌<◌, length, get_or, take};
ghost use Rattle.spec.specs.Instance.{instance_of};
ghost use Rattle.spec.specs.Answers.{told, accepted_as};
ghost use Rattle.spec.specs.Held.{held};
ghost use Rattle.spec.specs.Entry.{overwrite, written};
ghost use Rattle.spec.specs.Library.{borders_fit, labelled_for, label_sections, labels_output};
ghost use Rattle.tables.specs.Tables.{Passed};
ghost use Rattle.tables.specs.Ready.{MeetsReady};

use frames::bytes::all_below;
use listing::TABLE_BYTES;
use model::{Book, MAX_SEGMENTS, Refusal};
use sections::labels::label_sections;
use tables::meets::MEET_BYTES;
use tables::preparing::prepare;

// 15: whether the bytes are a set of borders, 0 or 1 a node.
fn borders_fit(b: Book, borders: &[u8]) -> bool
    requires { Passed b }
    ensures { result ≡ borders_fit (instance_of (held b)) borders.now }
{
    borders.len() == b.node_count && all_below(borders, 0, 2)
}

// Writes the first n labels, a byte each.
fn write_labels(labels: &[usize], n: usize, out: &mut [u8])
    requires { (n ≤ length labels.now) × (n ≤ length out.old) × ((s : ℕ) → s < n → get_or labels.now s 0 < 256) }
    ensures { out.new ≡ overwrite out.old (take n labels.now) }
{
    for (s, byte) in out[..n].iter_mut().enumerate() {
        *byte = labels[s] as u8;
    }
}

// 12, then 15, then the labels, of a book that passed, by what meets; answers how many they are.
fn label_for(b: Book, meets: &[u8], borders: &[u8], out: &mut [u8]) -> Result<usize, Refusal>
    requires { Passed b × MeetsReady b meets.now }
    ensures answer { told result ≡ accepted_as length (labelled_for (instance_of (held b)) borders.now (length out.old)) }
    ensures output { out.new ≡ overwrite out.old (written (labelled_for (instance_of (held b)) borders.now (length out.old))) }
{
    let n = b.segment_count;
    if out.len() < n {
        return Err(Refusal::NoRoom);
    }
    if !borders_fit(b, borders) {
        return Err(Refusal::NoPlan);
    }
    let mut labels = [0usize; MAX_SEGMENTS];
    label_sections(b, meets, borders, &mut labels);
    write_labels(&labels, n, out);
    Ok(n)
}

// The label of each segment's section under a set of borders, written into the output; answers how many they are.
pub fn label_book(book: &[u8], borders: &[u8], out: &mut [u8]) -> Result<usize, Refusal>
    ensures answer { told result ≡ accepted_as length (label_sections book.now borders.now (length out.old)) }
    ensures output { out.new ≡ labels_output book.now borders.now out.old }
{
    let mut runs = [0u8; TABLE_BYTES];
    let mut meets = [0u8; MEET_BYTES];
    let p = prepare(book, &mut runs, &mut meets)?;
    label_for(p.book, &meets[..p.meet_bytes], borders, out)
}
