// The clauses that hints may name: their words, each clause closed by 0, and a table of where each
// begins. Assumes nothing.
ghost use Rattle.std.specs.Prelude.{◌≡◌, ◌++◌, ◌+◌, ◌≤◌, length, pos};
ghost use Rattle.std.proofs.lemmas.List.Edits.{sets};
ghost use Rattle.spec.specs.Lists.{one};
ghost use Rattle.spec.specs.Formula.{words_of};
ghost use Rattle.spec.specs.Refutation.{clauses_of};
ghost use Rattle.refutation_file.specs.Numbers.{number_count, literals_in};
ghost use Rattle.propagation.specs.Kept.{starts_from};

use frames::NUMBER;
use refutation_file::numbers::literal_at;

// Stores the clause of a list of literals, and the 0 behind it, from `at` on.
pub fn store_clause(list: &[u8], words: &mut [i32], at: usize)
    requires { at + (number_count list.now + 1) ≤ length words.old }
    ensures { words.new ≡ sets words.old at (literals_in list.now ++ one (pos 0)) }
{
    let n = list.len() / NUMBER;
    for i in 0..n {
        words[at + i] = literal_at(list, i);
    }
    words[at + n] = 0;
}

// Notes where each clause begins.
pub fn index_clauses(words: &[i32], starts: &mut [usize])
    requires { (words.now ≡ words_of (clauses_of words.now)) × (length (clauses_of words.now) ≤ length starts.old) }
    ensures { starts.new ≡ sets starts.old 0 (starts_from 0 (clauses_of words.now)) }
{
    let mut first = 0;
    let mut clause = 0;
    for (at, word) in words.iter().enumerate() {
        if *word == 0 {
            starts[clause] = first;
            clause += 1;
            first = at + 1;
        }
    }
}
