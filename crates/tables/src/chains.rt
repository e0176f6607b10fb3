// The runs that follow a run, as a chain: two numbers a run, the first run that follows it and the next
// run that starts where it does. So the runs that follow a run are found one by one, without a test of
// the others. Assumes nothing.
ghost use Rattle.std.specs.Prelude.{◌≡◌, ◌∷◌, ℕ, ◌+◌, ◌-◌, ◌≤◌, ◌<◌, length};
ghost use Rattle.std.proofs.lemmas.List.Edits.{sets};
ghost use Rattle.spec.specs.Lists.{up_to, each, one, same, least_from};
ghost use Rattle.spec.specs.Read.{max_runs};
ghost use Rattle.spec.specs.Instance.{instance_of};
ghost use Rattle.spec.specs.Held.{held};
ghost use Rattle.listing.specs.Listed.{run_segments, train_bytes, place_at, start_at};
ghost use Rattle.tables.specs.Placed.{size_at, end_at};
ghost use Rattle.tables.specs.Tables.{Passed, chains_of, chain_table, train_chains, all_chains};
ghost use Rattle.tables.specs.Ready.{RunsHeld, RunsReady};

use crate::places::{follows, same_places, start_of};
use listing::TRAIN_BYTES;
use model::{Book, Counts, MAX_RUNS, MAX_TRAINS};
use network::track::length_in_segments;

// The numbers of a train's chains, and of all trains'.
pub const TRAIN_CHAINS: usize = 2 * MAX_RUNS;

pub const ALL_CHAINS: usize = MAX_TRAINS * TRAIN_CHAINS;

// The first of n runs that follows run r, or n.
fn first_follower(runs: &[u8], r: usize, l: usize, n: usize) -> usize
    requires { (length runs.now ≡ train_bytes) × (r < n) × (n ≤ max_runs) × (l ≤ size_at runs.now r) × (size_at runs.now r ≤ run_segments) }
    ensures { result ≡ least_from (λ q. same (place_at runs.now (end_at runs.now r l) l)
        (place_at runs.now (start_at q) l)) 0 n }
{
    (0..n).find(|q| follows(runs, r, *q, l)).unwrap_or(n)
}

// The first of n runs behind run q that starts at the same place as q, or n.
fn next_alike(runs: &[u8], q: usize, l: usize, n: usize) -> usize
    requires { (length runs.now ≡ train_bytes) × (q < n) × (n ≤ max_runs) × (l ≤ run_segments) }
    ensures { result ≡ least_from (λ p. same (place_at runs.now (start_at q) l) (place_at runs.now (start_at p) l))
        (q + 1) (n - (q + 1)) }
{
    (q + 1..n)
        .find(|p| same_places(runs, start_of(q), runs, start_of(*p), l))
        .unwrap_or(n)
}

// Writes, for each of n runs, the first run that follows it and the next that starts where it does.
fn chain_runs(runs: &[u8], l: usize, n: usize, chains: &mut [usize])
    requires { (length runs.now ≡ train_bytes) × (length chains.old ≡ train_chains) × (n ≤ max_runs)
        × ((r : ℕ) → r < n → l ≤ size_at runs.now r) × ((r : ℕ) → r < n → size_at runs.now r ≤ run_segments) }
    ensures { chains.new ≡ sets chains.old 0 (each (up_to n) λ r.
        least_from (λ q. same (place_at runs.now (end_at runs.now r l) l) (place_at runs.now (start_at q) l)) 0 n
        ∷ one (least_from (λ p. same (place_at runs.now (start_at r) l) (place_at runs.now (start_at p) l))
        (r + 1) (n - (r + 1)))) }
{
    for r in 0..n {
        chains[2 * r] = first_follower(runs, r, l, n);
        chains[2 * r + 1] = next_alike(runs, r, l, n);
    }
}

// Writes the chains of a train's n runs.
fn chain_train(b: Book, train: usize, n: usize, runs: &[u8], chains: &mut [usize])
    requires { Passed b × (train < b.train_count) × (n ≡ (instance_of (held b)).runs train)
        × RunsHeld (held b) train runs.now × (length chains.old ≡ train_chains) }
    ensures { chains.new ≡ sets chains.old 0 (chains_of (held b) train) }
{
    let l = length_in_segments(b, b.trains[train]);
    chain_runs(runs, l, n, chains);
}

// Writes the chains of every train's runs.
pub fn chain_trains(b: Book, counts: Counts, runs: &[u8], chains: &mut [usize])
    requires { RunsReady b counts runs.now × (length chains.old ≡ all_chains) }
    ensures { chains.new ≡ chain_table b chains.old }
{
    for i in 0..b.train_count {
        let part = i * TRAIN_BYTES;
        let at = i * TRAIN_CHAINS;
        chain_train(
            b,
            i,
            counts[i],
            &runs[part..part + TRAIN_BYTES],
            &mut chains[at..at + TRAIN_CHAINS],
        );
    }
}
