// The step rule: unit propagation by hints. What is known of a variable is a byte, 0 open, 1 true, 2
// false; the trail has the variables that were set, so that a step costs what it sets and not the
// number of variables. Assumes nothing.
ghost use Rattle.std.specs.Prelude.{◌≡◌, ◌+◌, ◌-◌, ◌≤◌, ◌<◌, length, drop, T, eqb};
ghost use Rattle.std.proofs.Math.ListN as lists;
ghost use Rattle.spec.specs.Assignment as spec;
ghost use Rattle.spec.specs.Refutation.{variable_of, literals_fit, hints_fit, refuting, go_through, follows_rule, clauses_of};
ghost use Rattle.spec.specs.Entry.{zeroed};
ghost use Rattle.refutation_file.specs.Numbers.{numbers_in, literals_in};
ghost use Rattle.propagation.specs.Kept.{Kept};
ghost use Rattle.propagation.specs.Known.{values_in, answered, true_byte, false_byte, Trailed, LeftOnTrail};

use frames::NUMBER;
use refutation_file::numbers::{literal_at, number_at, variable};

// The truth of a literal: open, true or false.
#[derive(Clone, Copy)]
pub enum Value {
    Open,
    Yes,
    No,
}

// The truth of a literal, by what is known of its variable.
pub fn truth(values: &[u8], l: i32) -> Value
    requires { (1 ≤ variable_of l) × (variable_of l ≤ length values.now) × (variable_of l < 2147483648) }
    ensures { result ≡ answered (spec.truth (values_in values.now) l) }
{
    let value = values[variable(l) - 1];
    if value == 0 {
        return Value::Open;
    }
    if l < 0 {
        if value == 1 { Value::No } else { Value::Yes }
    } else {
        if value == 1 { Value::Yes } else { Value::No }
    }
}

// Whether the byte of a literal's variable is the one that makes it false: asked first, since most
// literals of a hint are false. A no decides nothing; the literal's truth is asked then.
fn has_false_byte(values: &[u8], l: i32) -> bool
    requires { (1 ≤ variable_of l) × (variable_of l ≤ length values.now) × (variable_of l < 2147483648) }
    ensures { result ≡ eqb (lists.get_or values.now (variable_of l - 1) 0) (false_byte l) }
{
    let byte = if l < 0 { 1u8 } else { 2u8 };
    values[variable(l) - 1] == byte
}

// Makes a literal true, and puts its variable on the trail.
fn make_true(values: &mut [u8], trail: &mut [usize], set: usize, l: i32)
    requires { (1 ≤ variable_of l) × (variable_of l ≤ length values.old) × (variable_of l < 2147483648) × (set < length trail.old) }
    ensures { (values.new ≡ lists.set values.old (variable_of l - 1) (true_byte l))
        × (trail.new ≡ lists.set trail.old set (variable_of l - 1)) }
{
    let v = variable(l) - 1;
    values[v] = if l < 0 { 2 } else { 1 };
    trail[set] = v;
}

// Makes a literal false, and puts its variable on the trail.
fn make_false(values: &mut [u8], trail: &mut [usize], set: usize, l: i32)
    requires { (1 ≤ variable_of l) × (variable_of l ≤ length values.old) × (variable_of l < 2147483648) × (set < length trail.old) }
    ensures { (values.new ≡ lists.set values.old (variable_of l - 1) (false_byte l))
        × (trail.new ≡ lists.set trail.old set (variable_of l - 1)) }
{
    let v = variable(l) - 1;
    values[v] = if l < 0 { 1 } else { 2 };
    trail[set] = v;
}

// Takes each literal of a list false where all variables are open, the last literal first. Answers how
// many variables it set. They are on the trail, in an order that is free, and what is behind them stays.
fn take_false(list: &[u8], values: &mut [u8], trail: &mut [usize]) -> usize
    requires { T (literals_fit (length values.old) (literals_in list.now)) × (values.old ≡ zeroed 0 (length values.old))
        × (length values.old ≤ length trail.old) × (length values.old < 2147483648) }
    ensures { (values_in values.new ≡ refuting (literals_in list.now))
        × Trailed values.new trail.new result × (drop result trail.new ≡ drop result trail.old) }
{
    let n = list.len() / NUMBER;
    for i in 0..n {
        make_false(values, trail, i, literal_at(list, n - 1 - i));
    }
    n
}

// What became of a step's hints: whether they proved it, and how many variables are set now.
#[derive(Clone, Copy)]
struct Tried {
    proved: bool,
    set: usize,
}

// Goes through the hints, from what is known and with so many variables set: a hint with all literals
// false must be the last, and proves the step; one with a single literal not false, and that one open,
// makes it true; at any other, a true literal or a second open one, the step is refused. Which variables
// have values after it is free; they are those on the trail, and what is behind them there stays.
fn try_hints(
    hints: &[u8],
    words: &[i32],
    starts: &[usize],
    values: &mut [u8],
    trail: &mut [usize],
    first: usize,
) -> Tried
    requires { Kept (length values.old) words.now starts.now × T (hints_fit (length starts.now + 1) (numbers_in hints.now))
        × Trailed values.old trail.old first × (length values.old < 2147483648) }
    ensures { (result.proved ≡ go_through (clauses_of words.now) (values_in values.old) (numbers_in hints.now))
        × Trailed values.new trail.new result.set
        × (first ≤ result.set) × (drop result.set trail.new ≡ drop result.set trail.old) }
{
    let n = hints.len() / NUMBER;
    let mut set = first;
    let mut proved = false;
    'hints: for k in 0..n {
        let mut at = starts[number_at(hints, k) - 1];
        let mut unit = 0i32;
        // Document 01's inner loop over the literals: it ends at the clause's 0, so no end has to be known ahead.
        while words[at] != 0 {
            let l = words[at];
            if !has_false_byte(values, l) {
                match truth(values, l) {
                    Value::No => {}
                    Value::Yes => break 'hints,
                    Value::Open => {
                        if unit != 0 {
                            break 'hints;
                        }
                        unit = l;
                    }
                }
            }
            at += 1;
        }
        if unit == 0 {
            proved = k + 1 == n;
            break 'hints;
        }
        make_true(values, trail, set, unit);
        set += 1;
    }
    Tried { proved, set }
}

// Opens the variables on the trail again, and so all of them.
fn undo(values: &mut [u8], trail: &[usize], set: usize)
    requires { Trailed values.old trail.now set }
    ensures { values.new ≡ zeroed 0 (length values.old) }
{
    for v in &trail[..set] {
        values[*v] = 0;
    }
}

// 20: whether a step of these literals and hints follows the step rule, where all variables are open.
// They are open again after it. Which variables it leaves on the trail is free; it writes no other
// numbers there, and nothing behind them.
pub fn follows_rule(
    literals: &[u8],
    hints: &[u8],
    words: &[i32],
    starts: &[usize],
    values: &mut [u8],
    trail: &mut [usize],
) -> bool
    requires { Kept (length values.old) words.now starts.now × T (hints_fit (length starts.now + 1) (numbers_in hints.now))
        × T (literals_fit (length values.old) (literals_in literals.now)) × (values.old ≡ zeroed 0 (length values.old))
        × (length values.old ≤ length trail.old) × (length values.old < 2147483648) }
    ensures { (result ≡ follows_rule (clauses_of words.now)
        (record { literals = literals_in literals.entry.now; hints = numbers_in hints.now }))
        × (values.new ≡ values.old)
        × LeftOnTrail (length values.old) trail.old trail.new }
{
    let first = take_false(literals, values, trail);
    let tried = try_hints(hints, words, starts, values, trail, first);
    undo(values, trail, tried.set);
    tried.proved
}
