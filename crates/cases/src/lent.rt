// How much a record lends.
ghost use Rattle.std.specs.Prelude.{◌≤◌};

use refutation_file::numbers::number_at;

// The number in this place, or the most that is lent, where that is less or there is no number.
pub fn lent(numbers: &[u8], place: usize, most: usize) -> usize
    ensures { result ≤ most }
{
    if numbers.len() / 4 <= place {
        return most;
    }
    number_at(numbers, place).min(most)
}
