// Which segments meet at which node: a table of three bytes (node, first segment, second segment) for
// each ordered pair of segments of one TTD that touch a node, filled once a book. Family H goes by
// it, train by train and interval by interval. Assumes nothing.
ghost use Rattle.std.specs.Prelude.{◌≡◌, ◌+◌, ◌≤◌, ◌<◌, length, set};
ghost use Rattle.std.proofs.lemmas.List.Edits.{sets};
ghost use Rattle.spec.specs.Read.{max_nodes};
ghost use Rattle.spec.specs.Instance.{instance_of};
ghost use Rattle.spec.specs.Held.{held, CountsFit};
ghost use Rattle.tables.specs.Meets.{meets_of, meets_at};
ghost use Rattle.tables.specs.Ready.{MeetsFilled};

use model::{Book, MAX_SEGMENTS};
use network::track::{meet, touches};

// Three bytes for each ordered pair of segments that meet at a node: a segment has two nodes, and meets
// at most all others at each.
pub const MEET_BYTES: usize = 3 * 2 * MAX_SEGMENTS * (MAX_SEGMENTS - 1);

// Stores a number below 256 where the table has room.
fn store_byte(table: &mut [u8], at: usize, n: usize)
    requires { n < 256 }
    ensures { table.new ≡ set table.old at n }
{
    // Tried with `get_mut`: a proof learns nothing of the bytes behind it, and the goal `returns-in-Some` stays open.
    if at < table.len() {
        table[at] = n as u8;
    }
}

// Lists the second segments that meet the first at the node, from `at` on; answers where they end. The
// bounds of `at` here and below are generous, so that no sum wraps: 96 nodes with 64 times 64 pairs of
// three bytes are 1,179,648 bytes.
fn list_of(b: Book, node: usize, s: usize, table: &mut [u8], at: usize) -> usize
    requires { CountsFit b × (node < max_nodes) × (s < b.segment_count) × (at ≤ 2000000) }
    ensures { (result ≡ at + length (meets_of (instance_of (held b)) node s))
        × (table.new ≡ sets table.old at (meets_of (instance_of (held b)) node s)) }
{
    let first = b.segments[s];
    let mut end = at;
    for (u, second) in b.segments[..b.segment_count].iter().enumerate() {
        if meet(node, s, first, u, *second) {
            store_byte(table, end, node);
            store_byte(table, end + 1, s);
            store_byte(table, end + 2, u);
            end += 3;
        }
    }
    end
}

// Lists the pairs of segments that meet at the node, from `at` on; answers where they end.
fn list_at(b: Book, node: usize, table: &mut [u8], at: usize) -> usize
    requires { CountsFit b × (node < max_nodes) × (at ≤ 1500000) }
    ensures { (result ≡ at + length (meets_at (instance_of (held b)) node))
        × (table.new ≡ sets table.old at (meets_at (instance_of (held b)) node)) }
{
    let mut end = at;
    for (s, segment) in b.segments[..b.segment_count].iter().enumerate() {
        if touches(*segment, node) {
            end = list_of(b, node, s, table, end);
        }
    }
    end
}

// Lists all that meet; answers how many bytes that is.
pub fn list_meets(b: Book, table: &mut [u8]) -> usize
    requires { CountsFit b }
    ensures { MeetsFilled b result table.old table.new }
{
    let mut end = 0;
    for node in 0..b.node_count {
        end = list_at(b, node, table, end);
    }
    end
}
