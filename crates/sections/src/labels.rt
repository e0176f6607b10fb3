// The section rule in running code, once for all segments: under a set of borders each segment gets
// the label of its section, which is the section's least segment. Two segments are together where
// their labels are equal. Assumes nothing.
ghost use Rattle.std.specs.Prelude.{◌≡◌, map, ◌≤◌, ◌<◌, length, get_or};
ghost use Rattle.std.proofs.lemmas.List.Edits.{sets};
ghost use Rattle.spec.specs.Lists.{up_to};
ghost use Rattle.spec.specs.Read.{max_segments};
ghost use Rattle.spec.specs.Instance.{instance_of};
ghost use Rattle.spec.specs.Held.{held};
ghost use Rattle.spec.specs.Plan.{borders_of};
ghost use Rattle.tables.specs.Tables.{Passed};
ghost use Rattle.tables.specs.Ready.{MeetsReady};
ghost use Rattle.sections.specs.Labels.{merged_label, joined_label, section_labels};

use model::Book;

// Gives each segment its own number as its label: no two are together yet.
fn number_labels(labels: &mut [usize], segments: usize)
    requires { segments ≤ length labels.old }
    ensures { labels.new ≡ sets labels.old 0 (map (λ s. s) (up_to segments)) }
{
    for (s, label) in labels[..segments].iter_mut().enumerate() {
        *label = s;
    }
}

// Gives every segment with the label `from` the label `to`.
fn merge(labels: &mut [usize], segments: usize, from: usize, to: usize)
    requires { segments ≤ length labels.old }
    ensures { labels.new ≡ sets labels.old 0
        (map (λ s. merged_label from to (get_or labels.old s 0)) (up_to segments)) }
{
    for label in &mut labels[..segments] {
        if *label == from {
            *label = to;
        }
    }
}

// Two segments are together, so their sections are one: the greater of the two labels becomes the
// smaller one, at every segment that has it.
fn join(labels: &mut [usize], segments: usize, s: usize, u: usize)
    requires { (segments ≤ length labels.old) × (s < segments) × (u < segments) }
    ensures { labels.new ≡ sets labels.old 0
        (map (λ x. joined_label (get_or labels.old s 0) (get_or labels.old u 0) (get_or labels.old x 0))
        (up_to segments)) }
{
    let one = labels[s];
    let other = labels[u];
    if one != other {
        merge(labels, segments, one.max(other), one.min(other));
    }
}

// The label of each segment's section, by one pass over the pairs of segments that meet. `meets`
// holds node, first and second segment, three bytes each. Each pair that meets at a node without a
// border is joined.
pub fn label_sections(b: Book, meets: &[u8], borders: &[u8], labels: &mut [usize])
    requires { Passed b × MeetsReady b meets.now × (b.node_count ≤ length borders.now) × (length labels.old ≡ max_segments) }
    ensures { labels.new
        ≡ sets labels.old 0 (section_labels (instance_of (held b)) (borders_of borders.now)) }
{
    number_labels(labels, b.segment_count);
    for meet in meets.chunks_exact(3) {
        let open = borders[usize::from(meet[0])] != 1;
        if open {
            join(
                labels,
                b.segment_count,
                usize::from(meet[1]),
                usize::from(meet[2]),
            );
        }
    }
}
