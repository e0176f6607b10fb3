// The counter that a cap asks for, P7: over which nodes it goes, how far it counts, and how many of them are
// set. Assumes nothing.
ghost use Rattle.std.specs.Prelude.{◌≡◌, not, ◌&&◌, ◌+◌, ◌≤◌, length, eqb};
ghost use Rattle.std.proofs.Math.Option.{some};
ghost use Rattle.std.proofs.lemmas.List.Edits.{sets};
ghost use Rattle.spec.specs.Book.{denies_border, forces_border};
ghost use Rattle.spec.specs.Instance.{instance_of, free_nodes_of};
ghost use Rattle.spec.specs.Plan.{borders_of};
ghost use Rattle.spec.specs.Cap.{counter_for, set_count};
ghost use Rattle.spec.specs.Held.{CountsFit, held};
ghost use Rattle.layout.specs.Counters.{held_counter, CounterOf};

use model::Book;
use network::track::{count_free, is_free};

// A counter: it counts nodes that are set up to `most`, and has `spare` more nodes of kind 1 than that. With
// `spare` 0 it counts nothing.
#[derive(Clone, Copy, Debug, PartialEq, Eq)]
pub struct Counter {
    pub most: usize,
    pub spare: usize,
}

// The counter of a cap over so many nodes of kind 1: none where the cap allows them all.
fn counter_below(cap: usize, free: usize) -> Counter
    ensures { held_counter result ≡ counter_for (some cap) free }
{
    if cap < free {
        return Counter {
            most: cap,
            spare: free - cap,
        };
    }
    Counter { most: 0, spare: 0 }
}

// The counter of a cap in a book.
pub fn counter_of(b: Book, cap: Option<usize>) -> Counter
    requires { CountsFit b }
    ensures { CounterOf b cap result }
{
    match cap {
        None => Counter { most: 0, spare: 0 },
        Some(most) => counter_below(most, count_free(b)),
    }
}

// Stores the numbers of the nodes of kind 1, rising, at the start of a slice; answers how many they are.
pub fn list_free(b: Book, out: &mut [usize]) -> usize
    requires { CountsFit b × (b.node_count ≤ length out.old) }
    ensures { (result ≡ length (free_nodes_of (instance_of (held b))))
        × (out.new ≡ sets out.old 0 (free_nodes_of (instance_of (held b)))) }
{
    let mut free = 0;
    for (node, kind) in b.nodes[..b.node_count].iter().enumerate() {
        if is_free(*kind) {
            out[free] = node;
            free += 1;
        }
    }
    free
}

// Whether a node counts: it is of kind 1 and has a border.
fn counts(kind: u8, border: u8) -> bool
    ensures { result ≡ (not (denies_border kind) && not (forces_border kind) && eqb border 1) }
{
    is_free(kind) && border == 1
}

// How many nodes of kind 1 have a border, by the bytes of a plan or of an assignment.
pub fn count_set(b: Book, borders: &[u8]) -> usize
    requires { CountsFit b × (b.node_count ≤ length borders.now) }
    ensures { result ≡ set_count (instance_of (held b)) (borders_of borders.now) }
{
    b.nodes[..b.node_count]
        .iter()
        .zip(borders)
        .filter(|(kind, border)| counts(**kind, **border))
        .count()
}
