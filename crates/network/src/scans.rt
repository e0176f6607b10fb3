// Scans of a book's segments: whether one has a TTD, and whether a border may divide it. Assumes nothing.
ghost use Rattle.std.specs.Prelude.{◌≡◌, not, ◌&&◌, T};
ghost use Rattle.spec.specs.Lists as lists;
ghost use Rattle.spec.specs.Book as book;
ghost use Rattle.spec.specs.Read as read;
ghost use Rattle.spec.specs.Held.{held, CountsFit};

use crate::track::denies_border;
use model::{Book, MAX_NODES};

// Whether some segment has the TTD.
pub fn some_has(b: Book, ttd: usize) -> bool
    requires { CountsFit b }
    ensures { result ≡ read.some_has (held b) ttd }
{
    b.segments[..b.segment_count]
        .iter()
        .any(|s| usize::from(s.ttd) == ttd)
}

// Whether a node of this kind may have a border, and was touched before.
fn divides(kind: u8, touched: bool) -> bool
    ensures { result ≡ (not (book.denies_border kind) && touched) }
{
    !denies_border(kind) && touched
}

// 9: whether a node of kind 1 or 2 has two segments of the TTD. `seen` tells of each node whether a
// segment of the TTD before has touched it.
pub fn may_divide(b: Book, ttd: usize) -> bool
    requires { CountsFit b × T (lists.all (read.segment_fits (held b)) (held b).segments) }
    ensures { result ≡ read.may_divide (held b) ttd }
{
    let mut seen = [false; MAX_NODES];
    for s in &b.segments[..b.segment_count] {
        if usize::from(s.ttd) == ttd {
            let a = usize::from(s.a);
            let e = usize::from(s.b);
            if divides(b.nodes[a], seen[a]) || divides(b.nodes[e], seen[e]) {
                return true;
            }
            seen[a] = true;
            seen[e] = true;
        }
    }
    false
}
