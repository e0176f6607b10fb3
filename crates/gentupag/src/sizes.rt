// The sizes of a book: what it counts, and how much its outputs need. Nothing is written. Assumes nothing.
ghost use Rattle.std.specs.Prelude.{◌≡◌};
ghost use Rattle.spec.specs.Lists.{accepted};
ghost use Rattle.spec.specs.Instance.{instance_of, under};
ghost use Rattle.spec.specs.Held.{held, held_cap};
ghost use Rattle.spec.specs.Library.{sizes_of, measure_book};
ghost use Rattle.gentupag.specs.Answers.{sizes_answer};

use crate::answers::Sizes;
use formula::walk::walk_formula;
use layout::moves::plan_length;
use layout::numbering::variable_count;
use listing::TABLE_BYTES;
use network::track::count_free;
use tables::chains::ALL_CHAINS;
use tables::meets::MEET_BYTES;
use tables::preparing::{Prepared, prepare_chains};
use tables::ready::FormulaTables;

// The sizes under a cap or none, by the tables of a book.
fn measure_by(t: &FormulaTables, cap: Option<usize>) -> Sizes
    ensures { result ≡ sizes_answer (accepted (sizes_of (under (held_cap cap) (instance_of (held t.now.book))))) }
{
    let none = &t.runs[0..0];
    let mut nowhere = [0i32; 1];
    let passed = walk_formula(t, cap, none, &mut nowhere[0..0]);
    Sizes {
        number: 0,
        detail: 0,
        intervals: t.book.intervals,
        nodes: t.book.node_count,
        free_nodes: count_free(t.book),
        segments: t.book.segment_count,
        trains: t.book.train_count,
        variables: variable_count(t.book, t.counts, cap),
        clauses: passed.clauses,
        words: passed.words,
        plan_bytes: plan_length(t.book),
    }
}

// The sizes beside a refusal.
fn refused_sizes(number: usize, detail: usize) -> Sizes
    ensures { result ≡ record {
      number = number;
      detail = detail;
      intervals = 0;
      nodes = 0;
      free_nodes = 0;
      segments = 0;
      trains = 0;
      variables = 0;
      clauses = 0;
      words = 0;
      plan_bytes = 0;
    } }
{
    Sizes {
        number,
        detail,
        intervals: 0,
        nodes: 0,
        free_nodes: 0,
        segments: 0,
        trains: 0,
        variables: 0,
        clauses: 0,
        words: 0,
        plan_bytes: 0,
    }
}

// The sizes, under a cap or none, of the book that the bytes hold.
pub fn measure_book(cap: Option<usize>, book: &[u8]) -> Sizes
    ensures { result ≡ sizes_answer (measure_book (held_cap cap) book.now) }
{
    let mut runs = [0u8; TABLE_BYTES];
    let mut chains = [0usize; ALL_CHAINS];
    let mut meets = [0u8; MEET_BYTES];
    match prepare_chains(book, &mut runs, &mut chains, &mut meets) {
        Ok(prepared) => {
            let Prepared {
                book,
                counts,
                meet_bytes,
            } = prepared;
            let t = FormulaTables {
                book,
                counts,
                runs: &runs,
                chains: &chains,
                meets: &meets[..meet_bytes],
            };
            measure_by(&t, cap)
        }
        Err(refusal) => refused_sizes(refusal.number(), refusal.detail()),
    }
}
