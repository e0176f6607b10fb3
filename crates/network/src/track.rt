// The track of a book: the kinds of nodes, what touches a node, where a directed segment begins and
// ends, and whether at an exit, which directed segments lead to which, lengths and speeds in segments,
// and whether a place is a path. Reader, run lists, formula and plan check go by these; only the filler of the run lists' successors asks for the
// two halves of "leads to" by itself. Assumes nothing.
ghost use Rattle.std.specs.Prelude.{◌≡◌, ◌+◌, ◌*◌, ◌/◌, ◌%◌, ◌<◌, ◌≤◌, length, take, map, not, ◌&&◌, cond, T, ltb, eqb};
ghost use Rattle.spec.specs.Lists as lists;
ghost use Rattle.spec.specs.Book as book;
ghost use Rattle.spec.specs.Runs as runs;
ghost use Rattle.spec.specs.Instance.{instance_of, free_nodes_of};
ghost use Rattle.spec.specs.Read.{max_joins, max_reach};
ghost use Rattle.spec.specs.Held.{held, held_train, CountsFit, NumbersFit};

use model::{Book, Join, MAX_JOINS, MAX_REACH, Segment, Train};

// Whether a node of this kind is an exit.
fn is_exit(kind: u8) -> bool
    ensures { result ≡ book.is_exit kind }
{
    kind == 3
}

// Whether a node of this kind may never have a border.
pub fn denies_border(kind: u8) -> bool
    ensures { result ≡ book.denies_border kind }
{
    kind == 0 || is_exit(kind)
}

// Whether a node of this kind always has a border.
pub fn forces_border(kind: u8) -> bool
    ensures { result ≡ book.forces_border kind }
{
    kind == 2
}

// Whether a node of this kind may have a border or none.
pub fn is_free(kind: u8) -> bool
    ensures { result ≡ (not (book.denies_border kind) && not (book.forces_border kind)) }
{
    !denies_border(kind) && !forces_border(kind)
}

// How many nodes may have a border or none.
pub fn count_free(b: Book) -> usize
    requires { CountsFit b }
    ensures { (result ≡ length (free_nodes_of (instance_of (held b)))) × (result ≤ b.node_count) }
{
    b.nodes[..b.node_count]
        .iter()
        .filter(|kind| is_free(**kind))
        .count()
}

// Whether the segment touches the node.
pub fn touches(s: Segment, node: usize) -> bool
    ensures { result ≡ book.touches s node }
{
    usize::from(s.a) == node || usize::from(s.b) == node
}

// Of two nodes the one for the direction of d: the first if it runs from a to b of its segment.
fn by_direction(d: usize, forth: u8, back: u8) -> usize
    ensures { (result ≡ cond (eqb (d % 2) 0) forth back) × (result < 256) }
{
    usize::from(if d % 2 == 0 { forth } else { back })
}

// The node where directed segment d begins, s being the record of its segment.
pub fn start_in(s: Segment, d: usize) -> usize
    ensures { (result ≡ cond (eqb (d % 2) 0) s.a s.b) × (result < 256) }
{
    by_direction(d, s.a, s.b)
}

// The node where a directed segment begins.
fn start_node(b: Book, d: usize) -> usize
    requires { CountsFit b × (d < 2 * b.segment_count) }
    ensures { (result ≡ book.start_node (held b) d) × (result < 256) }
{
    start_in(b.segments[d / 2], d)
}

// The node where directed segment d ends, s being the record of its segment.
fn end_in(s: Segment, d: usize) -> usize
    ensures { (result ≡ cond (eqb (d % 2) 0) s.b s.a) × (result < 256) }
{
    by_direction(d, s.b, s.a)
}

// The node where a directed segment ends.
pub fn end_node(b: Book, d: usize) -> usize
    requires { CountsFit b × (d < 2 * b.segment_count) }
    ensures { (result ≡ book.end_node (held b) d) × (result < 256) }
{
    end_in(b.segments[d / 2], d)
}

// Whether a directed segment ends at an exit. It looks the segment up itself, since `end_node` would have
// the book copied once more.
pub fn ends_at_exit(b: Book, d: usize) -> bool
    requires { CountsFit b × (d < 2 * b.segment_count) × (book.end_node (held b) d < b.node_count) }
    ensures { result ≡ book.is_exit (book.node_kind_at (held b) (book.end_node (held b) d)) }
{
    let node = end_in(b.segments[d / 2], d);
    is_exit(b.nodes[node])
}

// Whether the join is of these two segments at this node, in either order.
fn join_is(node: usize, s: usize, t: usize, j: Join) -> bool
    ensures { result ≡ book.join_is node s t j }
{
    let left = usize::from(j.left);
    let right = usize::from(j.right);
    usize::from(j.node) == node && (left == s && right == t || left == t && right == s)
}

// Whether one of the first n joins is of these two segments at this node. It takes the joins and not
// their book, since run lists ask it for many pairs.
pub fn join_among(joins: [Join; MAX_JOINS], n: usize, node: usize, s: usize, t: usize) -> bool
    requires { n ≤ max_joins }
    ensures { result ≡ lists.any (book.join_is node s t) (take n joins) }
{
    joins[..n].iter().any(|j| join_is(node, s, t, *j))
}

// Whether some join is of these two segments at this node.
pub fn joined(b: Book, node: usize, s: usize, t: usize) -> bool
    requires { CountsFit b }
    ensures { result ≡ book.joined (held b) node s t }
{
    let joins = b.joins;
    join_among(joins, b.join_count, node, s, t)
}

// Whether directed segment d ends where e begins, with a join of the two there.
fn leads_to(b: Book, d: usize, e: usize) -> bool
    requires { CountsFit b × (d < 2 * b.segment_count) × (e < 2 * b.segment_count) }
    ensures { result ≡ runs.leads_to (held b) d e }
{
    let node = end_node(b, d);
    node == start_node(b, e) && joined(b, node, d / 2, e / 2)
}

// Whether s and t, with these records, are two different segments of one TTD that both touch the node.
pub fn meet(node: usize, s: usize, first: Segment, t: usize, second: Segment) -> bool
    ensures { result ≡ (not (eqb s t) && eqb first.ttd second.ttd && book.touches first node && book.touches second node) }
{
    s != t && first.ttd == second.ttd && touches(first, node) && touches(second, node)
}

// A train's length in segments, rounded up.
pub fn length_in_segments(b: Book, t: Train) -> usize
    requires { NumbersFit b × (1 ≤ b.segment_metres) × (t.metres < 65536) }
    ensures { result ≡ book.length_in_segments (held b) (held_train t) }
{
    (t.metres + (b.segment_metres - 1)) / b.segment_metres
}

// A train's speed in segments an interval, to the nearest, an exact half going down: a half less, rounded up. Both sides of the
// division are doubled, so that the half is a whole number.
pub fn speed_in_segments(b: Book, t: Train) -> usize
    requires { NumbersFit b × (1 ≤ b.segment_metres) × (t.speed < 65536) }
    ensures { result ≡ book.speed_in_segments (held b) (held_train t) }
{
    let n = t.speed * b.interval_seconds * 5;
    let d = 18 * b.segment_metres;
    (2 * n + (d - 1)) / (2 * d)
}

// Whether the first n directed segments of the place are on different segments.
fn all_different(place: [u8; MAX_REACH], n: usize) -> bool
    requires { n ≤ max_reach }
    ensures { result ≡ lists.different (map book.segment_of (take n place)) }
{
    let used = &place[..n];
    for (i, d) in used.iter().enumerate() {
        if used[i + 1..].iter().any(|e| d / 2 == e / 2) {
            return false;
        }
    }
    true
}

// Whether each of the first n directed segments of the place leads to the next.
fn all_linked(b: Book, place: [u8; MAX_REACH], n: usize) -> bool
    requires { CountsFit b × (n ≤ max_reach) × T (lists.all (λ d. ltb d (2 * b.segment_count)) (take n place)) }
    ensures { result ≡ runs.linked (held b) (take n place) }
{
    for pair in place[..n].windows(2) {
        if !leads_to(b, usize::from(pair[0]), usize::from(pair[1])) {
            return false;
        }
    }
    true
}

// Whether the first n directed segments of the place are a path.
pub fn is_path(b: Book, place: [u8; MAX_REACH], n: usize) -> bool
    requires { CountsFit b × (n ≤ max_reach) × T (lists.all (λ d. ltb d (2 * b.segment_count)) (take n place)) }
    ensures { result ≡ runs.is_path (held b) (take n place) }
{
    all_different(place, n) && all_linked(b, place, n)
}
