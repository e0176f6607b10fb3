// A book's formula, as its text or as a digest of it.
ghost use Rattle.std.specs.Prelude.{◌≡◌, ◌<◌, ◌≤◌, length};

use crate::lent::lent;
use programs::dimacs::put_words;
use programs::printing::{Opened, open_text, print, print_decimal, print_text, print_words};
use std::rt::HostRuntime;

// The first line in `line`, and the words behind it, with as many words lent as the numbers say.
fn opened(
    cap: Option<usize>,
    book: &[u8],
    numbers: &[u8],
    words: &mut [i32],
    line: &mut [u8],
) -> Opened
    requires { length line.old ≡ 64 }
    ensures { result.words ≤ length words.old }
{
    let n = lent(numbers, 0, words.len());
    open_text(cap, book, false, &mut words[..n], line)
}

// What print_formula prints.
pub fn print_formula(rt: &HostRuntime, cap: Option<usize>, book: &[u8], numbers: &[u8]) {
    let mut words = [0i32; 16384];
    let mut line = [0u8; 64];
    let text = opened(cap, book, numbers, &mut words, &mut line);
    let n = text.words;
    print(rt, &line, text.len);
    print_words(rt, &words[..n]);
}

// How many bytes were passed, and their checksum.
#[derive(Clone, Copy, Debug, PartialEq, Eq)]
struct Digest {
    len: u64,
    sum: usize,
}

// The digest with n more bytes.
fn more(d: Digest, bytes: &[u8], n: usize) -> Digest
    requires { d.sum < 1000000007 }
    ensures { result.sum < 1000000007 }
{
    let passed = &bytes[..n.min(bytes.len())];
    let mut sum = d.sum;
    for x in passed {
        sum = (sum * 257 + usize::from(*x) + 1) % 1000000007;
    }
    Digest {
        len: d.len.wrapping_add(passed.len() as u64),
        sum,
    }
}

// The digest with the text of words, which is made in pieces.
fn more_words(d: Digest, words: &[i32]) -> Digest
    requires { d.sum < 1000000007 }
{
    let mut buf = [0u8; 65536];
    let mut digest = d;
    let mut from = 0;
    // a `while`: each turn goes on by the words of a whole piece
    while from < words.len() {
        let piece = put_words(&mut buf, words, from);
        digest = more(digest, &buf, piece.len);
        from = piece.next;
    }
    digest
}

// The length and the checksum of what print_formula prints.
pub fn print_digest(rt: &HostRuntime, cap: Option<usize>, book: &[u8], numbers: &[u8]) {
    let mut words = [0i32; 16384];
    let mut line = [0u8; 64];
    let text = opened(cap, book, numbers, &mut words, &mut line);
    let n = text.words;
    let none = Digest { len: 0, sum: 0 };
    let first = more(none, &line, text.len);
    let whole = more_words(first, &words[..n]);
    print_decimal(rt, whole.len);
    print_text(rt, b" ");
    print_decimal(rt, whole.sum as u64);
    print_text(rt, b"\n");
}
