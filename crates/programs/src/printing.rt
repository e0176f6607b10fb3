// What the programs take in and print. `open_text` makes the text of a book's formula, or the line of its
// refusal, 12 first where the book is too long; its contract says that line and words together are the
// specification's text. The other functions only read an open file, and hand bytes to the output, in
// pieces where the text is long.
ghost use Rattle.std.specs.Prelude.{◌≡◌, true, ◌++◌, ◌≤◌, length, take, IfOk};
ghost use Rattle.std.proofs.lemmas.List.Edits.{sets};
ghost use Rattle.spec.specs.Held.{held_cap};
ghost use Rattle.spec.specs.Entry.{write_formula, words_after, formula_text};
ghost use Rattle.spec.specs.Programs.{unless_long, printed};
ghost use Rattle.programs.specs.Text.{words_text};
ghost use Rattle.programs.specs.Opening.{first_line, words_behind};
ghost use Rattle.programs.specs.Loaded.{IsPrefixLen};

use crate::dimacs::{put_header, put_refusal, put_words};
use crate::system::fail;
use model::Refusal;
use std::io::{Error, ErrorKind, Print, Read};
use std::rt::HostRuntime;
use writing::write_formula;

// How many bytes are printed first, and how many words follow them.
#[derive(Clone, Copy, Debug, PartialEq, Eq)]
pub struct Opened {
    pub len: usize,
    pub words: usize,
}

// Makes the text of the formula, under a cap or none, that the book's bytes hold: its first line, or the line of the
// refusal, in `line`, and the words whose text follows it in `words`. Where the book is too long, `long`,
// its bytes are not looked at, and the refusal is 12.
pub fn open_text(
    cap: Option<usize>,
    book: &[u8],
    long: bool,
    words: &mut [i32],
    line: &mut [u8],
) -> Opened
    requires { length line.old ≡ 64 }
    ensures { (take result.len line.new ++ words_text (take result.words words.new)
        ≡ printed (λ t. t) (unless_long long (formula_text (held_cap cap) book.now (length words.old))))
        × (line.new ≡ sets line.old 0 (first_line (unless_long long (write_formula (held_cap cap) book.now (length words.old)))))
        × (result.len ≤ 64)
        × (words.new ≡ words_after words.old (unless_long long (write_formula (held_cap cap) book.now (length words.old))))
        × (result.words ≤ length words.old)
        × (result.len ≡ length (first_line (unless_long long (write_formula (held_cap cap) book.now (length words.old)))))
        × (result.words ≡ words_behind (unless_long long (write_formula (held_cap cap) book.now (length words.old)))) }
{
    if long {
        return Opened {
            len: put_refusal(line, Refusal::NoRoom.number(), Refusal::NoRoom.detail()),
            words: 0,
        };
    }
    match write_formula(cap, book, words) {
        Ok(totals) => Opened {
            len: put_header(line, totals.variables, totals.clauses),
            words: totals.words,
        },
        Err(refusal) => Opened {
            len: put_refusal(line, refusal.number(), refusal.detail()),
            words: 0,
        },
    }
}

// An input: how many of its bytes are at the start of a buffer, whether it is longer than the buffer,
// and whether it could be read.
#[derive(Clone, Copy, Debug, PartialEq, Eq)]
pub struct Loaded {
    pub len: usize,
    pub long: bool,
    pub read: bool,
}

// Reads until the buffer is full, the input ends or a read fails; answers how many bytes stand at its start, and why
// a read failed, where one did.
fn fill<R: Read>(input: &mut R, buf: &mut [u8]) -> (usize, Option<Error>)
    ensures { result.0 ≤ length buf.new }
{
    let mut n = 0;
    // a `while`: n grows by as many bytes as each read gives
    while n < buf.len() {
        match input.read(&mut buf[n..]) {
            Ok(0) => return (n, None),
            Ok(got) => n += got,
            Err(error) => return (n, Some(error)),
        }
    }
    (n, None)
}

// Reads until the buffer is full, the input ends or a read fails; answers how many bytes stand at its start.
pub fn read_full<R: Read>(input: &mut R, buf: &mut [u8]) -> usize
    ensures { result ≤ length buf.new }
{
    fill(input, buf).0
}

// Reads an open input into the buffer, and tells why where it could not be read. One read more tells its end
// from a failure: an input is too long where it fills the buffer and has a byte more; a byte more behind a
// buffer that is not full means that a read failed in between.
pub fn load_or_why<R: Read>(input: &mut R, buf: &mut [u8]) -> (Loaded, Option<Error>)
    ensures { (IsPrefixLen result.0.len buf.new) × (result.0.long ≡ true → result.0.len ≡ length buf.new) }
{
    let (len, why) = fill(input, buf);
    let mut more = [0u8; 1];
    let (long, read, why) = match input.read(&mut more) {
        Ok(0) => (false, true, None),
        Ok(_) if len == buf.len() => (true, true, None),
        Ok(_) => (false, false, why),
        Err(error) => (false, false, Some(error)),
    };
    (Loaded { len, long, read }, why)
}

// Reads an open input into the buffer.
pub fn load_from<R: Read>(input: &mut R, buf: &mut [u8]) -> Loaded
    ensures { (IsPrefixLen result.len buf.new) × (result.long ≡ true → result.len ≡ length buf.new) }
{
    load_or_why(input, buf).0
}

// Reads an open input into the buffer, or answers why it could not be read.
pub fn load_whole<R: Read>(input: &mut R, buf: &mut [u8]) -> Result<Loaded, Error>
    ensures { IfOk result (λ l. IsPrefixLen l.len buf.new × (l.long ≡ true → l.len ≡ length buf.new)) }
{
    let (loaded, why) = load_or_why(input, buf);
    if loaded.read {
        Ok(loaded)
    } else {
        Err(why.unwrap_or(Error::from(ErrorKind::UnexpectedEof)))
    }
}

// Hands the first n bytes of the buffer to the output; answers whether it took them. Where it did not,
// standard error says why.
pub fn print(rt: &HostRuntime, buf: &[u8], n: usize) -> bool {
    if n <= buf.len() {
        match rt.write_all(&buf[..n]) {
            Ok(()) => return true,
            Err(error) => fail(rt, b"standard output", error),
        }
    }
    false
}

// Hands bytes to the output, and says nothing where it does not take them.
pub fn print_text(rt: &HostRuntime, text: &[u8]) {
    let _taken = rt.write_all(text);
}

// Prints a number in decimal, likewise.
pub fn print_decimal(rt: &HostRuntime, n: u64) {
    let _taken = rt.print(n);
}

// Prints the text of words in pieces, a buffer at a time.
pub fn print_words(rt: &HostRuntime, words: &[i32]) {
    let mut buf = [0u8; 65536];
    let mut from = 0;
    // a `while`: each turn goes on by the words of a whole piece
    while from < words.len() {
        let piece = put_words(&mut buf, words, from);
        if !print(rt, &buf, piece.len) {
            return;
        }
        from = piece.next;
    }
}

// Prints the formula, under a cap or none, of the book that the bytes hold, or its refusal, which is 12 where the book is too
// long. The words have 64 KiB.
fn print_formula_text(rt: &HostRuntime, cap: Option<usize>, book: &[u8], long: bool) {
    let mut words = [0i32; 16384];
    let mut line = [0u8; 64];
    let opened = open_text(cap, book, long, &mut words, &mut line);
    let n = opened.words;
    if print(rt, &line, opened.len) {
        print_words(rt, &words[..n]);
    }
}

// Reads a book from an open file and prints its formula under a cap or none, or its refusal; nothing where the book
// can't be read.
pub fn print_formula_from<R: Read>(
    rt: &HostRuntime,
    cap: Option<usize>,
    input: &mut R,
) -> Result<(), Error> {
    let mut book = [0u8; 65536];
    let loaded = load_whole(input, &mut book)?;
    print_formula_text(rt, cap, &book[..loaded.len], loaded.long);
    Ok(())
}
