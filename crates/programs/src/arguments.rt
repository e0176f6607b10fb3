// Numbers among a command's words, P7: a cap, and the n of the combined verdict. A word that is no decimal
// number, or one that does not fit 64 bits, is none (docs/DECISIONS.md). Assumes nothing.
ghost use Rattle.std.specs.Prelude.{◌≡◌};
ghost use Rattle.spec.specs.Held.{held_option};
ghost use Rattle.programs.specs.Arguments.{number_in};

// The number that a word's figures stand for, base ten, if it is one.
pub fn number_in(word: &[u8]) -> Option<usize>
    ensures { held_option result ≡ number_in word.now }
{
    if word.is_empty() {
        return None;
    }
    let mut n = 0usize;
    for c in word {
        if *c < b'0' || b'9' < *c {
            return None;
        }
        n = n.checked_mul(10)?.checked_add(usize::from(*c - b'0'))?;
    }
    Some(n)
}
