// The formula's text and the line of a refusal, written into a buffer. The words' text may be longer
// than the buffer: it is written in pieces, as many words at a time as fit. Assumes nothing.
ghost use Rattle.std.specs.Prelude.{◌≡◌, ◌+◌, ◌≤◌, length, take, drop};
ghost use Rattle.std.proofs.lemmas.List.Edits.{sets};
ghost use Rattle.spec.specs.Numbers.{decimal};
ghost use Rattle.spec.specs.Programs.{refusal_line};
ghost use Rattle.programs.specs.Text.{word_text, words_text, taken, header_text};

use frames::bytes::{put, put_bytes};

// Stores a number's figures, base ten; answers where they end.
fn put_number(buf: &mut [u8], at: usize, n: usize) -> usize
    requires { at ≤ 2000000000 }
    ensures { (result ≡ at + length (decimal n)) × (result ≤ at + 20) × (buf.new ≡ sets buf.old at (decimal n)) }
{
    let last = (n % 10) as u8 + b'0';
    if n < 10 {
        put(buf, at, last);
        return at + 1;
    }
    let end = put_number(buf, at, n / 10);
    put(buf, end, last);
    end + 1
}

// Stores a word's text: a literal and a blank, or 0 and the end of the line; answers where it ends.
fn put_word(buf: &mut [u8], at: usize, l: i32) -> usize
    requires { at ≤ 1000000000 }
    ensures { (result ≡ at + length (word_text l)) × (result ≤ at + 24) × (buf.new ≡ sets buf.old at (word_text l)) }
{
    if l == 0 {
        put(buf, at, b'0');
        put(buf, at + 1, b'\n');
        return at + 2;
    }
    let mut from = at;
    if l < 0 {
        put(buf, at, b'-');
        from = at + 1;
    }
    let end = put_number(buf, from, l.unsigned_abs() as usize);
    put(buf, end, b' ');
    end + 1
}

// A piece of the text: which word is next, and how many bytes there are.
#[derive(Clone, Copy, Debug, PartialEq, Eq)]
pub struct Piece {
    pub next: usize,
    pub len: usize,
}

// Fills the buffer with the text of words from a place on: one after the other while 24 bytes, more
// than any word has, are left. A buffer of fewer bytes takes none.
pub fn put_words(buf: &mut [u8], words: &[i32], from: usize) -> Piece
    requires { (from ≤ length words.now) × (length buf.old ≤ 1000000) }
    ensures { (result.next ≡ from + taken (length buf.old) (drop from words.now))
        × (result.len ≡ length (words_text (take (taken (length buf.old) (drop from words.now)) (drop from words.now))))
        × (result.len ≤ length buf.old)
        × (buf.new ≡ sets buf.old 0
        (words_text (take (taken (length buf.old) (drop from words.now)) (drop from words.now)))) }
{
    let mut next = from;
    let mut len = 0;
    // a `while`: it ends with the words or with the buffer's room, which falls by what each word takes
    while next < words.len() && 24 <= buf.len() - len {
        len = put_word(buf, len, words[next]);
        next += 1;
    }
    Piece { next, len }
}

// Stores the line ahead of the clauses: the fixed opening, then the two totals; answers its length.
pub fn put_header(buf: &mut [u8], variables: usize, clauses: usize) -> usize
    ensures { (result ≡ length (header_text variables clauses)) × (result ≤ 60) × (buf.new ≡ sets buf.old 0 (header_text variables clauses)) }
{
    let opened = put_bytes(buf, 0, b"p cnf ");
    let first = put_number(buf, opened, variables);
    put(buf, first, b' ');
    let second = put_number(buf, first + 1, clauses);
    put(buf, second, b'\n');
    second + 1
}

// Stores the line of a refusal: its number, a blank and its detail; answers its length. `Display` of a `Refusal` writes the
// same text, but has no contract that says so.
pub fn put_refusal(buf: &mut [u8], number: usize, detail: usize) -> usize
    ensures length { result ≡ length (refusal_line number detail) }
    ensures short { result ≤ 60 }
    ensures line { buf.new ≡ sets buf.old 0 (refusal_line number detail) }
{
    let first = put_number(buf, 0, number);
    put(buf, first, b' ');
    let second = put_number(buf, first + 1, detail);
    put(buf, second, b'\n');
    second + 1
}
