// From the bytes of a book to its tables, for every entry point, as far as it needs them: the book is
// read and its runs are listed, once; then what meets at a node; then the chains that the formula goes
// by. Assumes nothing.
ghost use Rattle.std.specs.Prelude.{◌≡◌, ◌≤◌, ◌<◌, length, take, IfOk, IfErr};
ghost use Rattle.model.specs.Refusals.{number_of};
ghost use Rattle.spec.specs.Read.{read_book};
ghost use Rattle.spec.specs.Answers.{told, accepted_as};
ghost use Rattle.spec.specs.Held.{held};
ghost use Rattle.listing.specs.Listed.{table_bytes, run_table};
ghost use Rattle.reader.specs.BookAnswers.{read_of};
ghost use Rattle.tables.specs.Tables.{all_chains, chain_table};
ghost use Rattle.tables.specs.Meets.{meet_room};
ghost use Rattle.tables.specs.Ready.{RunsReady, ChainsReady, MeetsReady, MeetsFilled};
ghost use Rattle.tables.specs.Prepared.{prepared_of};

use crate::chains::chain_trains;
use crate::meets::list_meets;
use model::{Book, Counts, Refusal};
use reader::reading::{ReadBook, read_runs};

// Reads a book and fills the table of its runs. Beside refusal 11 it is left free, for runs were listed
// by then; beside another it is as it was.
pub fn prepare_runs(book: &[u8], runs: &mut [u8]) -> Result<ReadBook, Refusal>
    requires { length runs.old ≡ table_bytes }
    ensures answer { told result ≡ accepted_as read_of (read_book book.now) }
    ensures ready { IfOk result (λ r. RunsReady r.book r.counts runs.new) }
    ensures filled { IfOk result (λ r. runs.new ≡ run_table (held r.book) runs.old) }
    ensures err { IfErr result (λ e. number_of e < 11 → runs.new ≡ runs.old) }
{
    read_runs(book, runs)
}

// A book that was read, how many runs each of its trains has, and how many bytes the table of what meets has.
#[derive(Clone, Copy)]
pub struct Prepared {
    pub book: Book,
    pub counts: Counts,
    pub meet_bytes: usize,
}

// Reads a book and fills the tables of its runs and of what meets. Beside a refusal they are as they
// were; only beside 11 the table of runs is left free.
pub fn prepare(book: &[u8], runs: &mut [u8], meets: &mut [u8]) -> Result<Prepared, Refusal>
    requires { (length runs.old ≡ table_bytes) × (length meets.old ≡ meet_room) }
    ensures answer { told result ≡ accepted_as prepared_of (read_book book.now) }
    ensures runs_ready { IfOk result (λ p. RunsReady p.book p.counts runs.new) }
    ensures meets_ready { IfOk result (λ p. (p.meet_bytes ≤ length meets.new) × MeetsReady p.book (take p.meet_bytes meets.new)) }
    ensures filled { IfOk result (λ p. (runs.new ≡ run_table (held p.book) runs.old) × MeetsFilled p.book p.meet_bytes meets.old meets.new) }
    ensures err { IfErr result (λ e. (number_of e < 11 → runs.new ≡ runs.old) × (meets.new ≡ meets.old)) }
{
    let ReadBook { book, counts } = prepare_runs(book, runs)?;
    let meet_bytes = list_meets(book, meets);
    Ok(Prepared {
        book,
        counts,
        meet_bytes,
    })
}

// The same, and the chains of its runs.
pub fn prepare_chains(
    book: &[u8],
    runs: &mut [u8],
    chains: &mut [usize],
    meets: &mut [u8],
) -> Result<Prepared, Refusal>
    requires { (length runs.old ≡ table_bytes) × (length chains.old ≡ all_chains) × (length meets.old ≡ meet_room) }
    ensures answer { told result ≡ accepted_as prepared_of (read_book book.now) }
    ensures runs_ready { IfOk result (λ p. RunsReady p.book p.counts runs.new) }
    ensures meets_ready { IfOk result (λ p. (p.meet_bytes ≤ length meets.new) × MeetsReady p.book (take p.meet_bytes meets.new)) }
    ensures chains_ready { IfOk result (λ p. ChainsReady p.book chains.new) }
    ensures filled { IfOk result (λ p. (runs.new ≡ run_table (held p.book) runs.old)
        × MeetsFilled p.book p.meet_bytes meets.old meets.new × (chains.new ≡ chain_table p.book chains.old)) }
    ensures err { IfErr result (λ e. (number_of e < 11 → runs.new ≡ runs.old) × (meets.new ≡ meets.old) × (chains.new ≡ chains.old)) }
{
    let p = prepare(book, runs, meets)?;
    chain_trains(p.book, p.counts, runs, chains);
    Ok(p)
}
