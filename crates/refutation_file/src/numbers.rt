// Lists of four-byte numbers in a file: a step's literals (18) and its hints (19), read where they are.
// Assumes nothing.
ghost use Rattle.std.specs.Prelude.{◌≡◌, ◌&&◌, ◌<◌, get_or, pos, ltb, leb};
ghost use Rattle.spec.specs.Frames.{number_width};
ghost use Rattle.spec.specs.Numbers.{signed};
ghost use Rattle.spec.specs.Refutation.{variable_of, literals_fit, hints_fit};
ghost use Rattle.refutation_file.specs.Numbers.{number_count, numbers_in, literals_in};

use frames::{NUMBER, pair};

// A number of a list.
pub fn number_at(list: &[u8], i: usize) -> usize
    requires { i < number_count list.now }
    ensures { (result ≡ get_or (numbers_in list.now) i 0) × (result < 4294967296) }
{
    let at = NUMBER * i;
    let low = pair(list, at);
    let high = pair(list, at + 2);
    low + 65536 * high
}

// The literal that a number of four bytes stands for.
fn literal(n: usize) -> i32
    requires { n < 4294967296 }
    ensures { result ≡ signed number_width n }
{
    if n < 2147483648 {
        n as i32
    } else {
        -((4294967295 - n) as i32) - 1
    }
}

// A literal of a list.
pub fn literal_at(list: &[u8], i: usize) -> i32
    requires { i < number_count list.now }
    ensures { result ≡ get_or (literals_in list.now) i (pos 0) }
{
    literal(number_at(list, i))
}

// The variable of a literal, from 1. The smallest i32, which has no negation, is kept out before.
pub fn variable(l: i32) -> usize
    requires { variable_of l < 2147483648 }
    ensures { result ≡ variable_of l }
{
    if l < 0 { (-l) as usize } else { l as usize }
}

// Whether a literal is of a variable above `low`, and of one of `variables`. Its range is tested before it
// is negated, which keeps out the smallest i32, whose negation does not fit.
fn literal_fits(l: i32, low: usize, variables: usize) -> bool
    requires { variables < 2147483648 }
    ensures { result ≡ (ltb low (variable_of l) && leb (variable_of l) variables) }
{
    let most = variables as i32;
    if most < l {
        return false;
    }
    let below = l < -most;
    if below {
        return false;
    }
    low < variable(l)
}

// 18: whether a list's literals are of `variables` and rise strictly.
pub fn literals_fit(list: &[u8], variables: usize) -> bool
    requires { variables < 2147483648 }
    ensures { result ≡ literals_fit variables (literals_in list.now) }
{
    let mut low = 0;
    for i in 0..list.len() / NUMBER {
        let l = literal_at(list, i);
        if !literal_fits(l, low, variables) {
            return false;
        }
        low = variable(l);
    }
    true
}

// 19: whether a list's hints are at least 1 and below the step's own number.
pub fn hints_fit(list: &[u8], own: usize) -> bool
    ensures { result ≡ hints_fit own (numbers_in list.now) }
{
    (0..list.len() / NUMBER).all(|i| {
        let h = number_at(list, i);
        1 <= h && h < own
    })
}
