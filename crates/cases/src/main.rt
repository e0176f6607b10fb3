// Answers stored cases. Each argument names a file of records; the program prints the name on a line, then
// the answer to each record. A record is a byte, which is the question's letter, a byte that is 1 where there
// is a cap and else 0, the cap in eight bytes, three numbers of four bytes, and three parts that have these
// lengths. For a capital letter the parts are a book, a second input, and numbers of four bytes that say how
// much is lent; where one is missing, as much as the commands lend. For a small letter they are the names of
// files. W and w have n in the place of the cap, and W its refutation behind its four numbers.
//
//   B  a book's counts             A  an assignment's verdict,    f a p n w u g c  what print_formula, the
//   R  its run lists                  with its plan and alone                      four checks, upgrade_book,
//   F  its formula                 P  a plan's                                     print_graph and
//   D  a digest of the formula     N  a refutation's                               list_carriers do with files
//                                  W  the combined verdict
//                                  U  an old book's, rewritten
//                                  G  a plan's, with its train graph
//                                  C  a plan's, with its carriers
#![tactic(auto)]

mod books;
mod files;
mod formulas;
mod judging;
mod lent;

ghost use Rattle.std.specs.Prelude.{◌<◌};

use programs::printing::{print_text, read_full};
use programs::system::{arg, arg_count, open};
use programs::verdicts::{Check, fewest_files, graph_files};
use refutation_file::numbers::number_at;
use std::io::Read;
use std::rt::HostRuntime;

// What a record asks: its letter, and its cap, or n.
#[derive(Clone, Copy, Debug, PartialEq, Eq)]
struct Question {
    letter: u8,
    cap: Option<usize>,
    n: usize,
}

fn answer(rt: &HostRuntime, q: Question, first: &[u8], second: &[u8], third: &[u8]) {
    let question = q.letter;
    let cap = q.cap;
    let n = q.n;
    match question {
        b'B' => books::print_counts(rt, first),
        b'R' => books::print_runs(rt, first),
        b'F' => formulas::print_formula(rt, cap, first, third),
        b'D' => formulas::print_digest(rt, cap, first, third),
        b'A' => judging::judge_assignment(rt, cap, first, second, third),
        b'P' => judging::judge(rt, Check::Plan, cap, first, second, third),
        b'N' => judging::refute(rt, cap, first, second, third),
        b'W' => judging::fewest(rt, first, n, second, third),
        b'U' => judging::upgrade(rt, first, third),
        b'G' => judging::draw(rt, first, second, third),
        b'C' => judging::judge(rt, Check::Carriers, cap, first, second, third),
        b'f' => files::print_formula(rt, cap, first, third),
        b'a' => files::judge(rt, Check::Assignment, cap, first, second, third),
        b'p' => files::judge(rt, Check::Plan, cap, first, second, third),
        b'n' => files::judge(rt, Check::Refutation, cap, first, second, third),
        b'w' => fewest_files(rt, first, n, second, third),
        b'u' => files::upgrade(rt, first, third),
        b'g' => graph_files(rt, first, second),
        b'c' => files::judge(rt, Check::Carriers, cap, first, second, third),
        _ => {
            print_text(rt, b"no such question\n");
        }
    }
}

// Reads the next n bytes, as far as the buffer has room for them: nothing where it has not.
fn read_part<'a, R: Read>(input: &mut R, buf: &'a mut [u8], n: usize) -> Option<&'a [u8]> {
    if buf.len() < n {
        return None;
    }
    read_full(input, &mut buf[..n]);
    Some(&buf[..n])
}

// The question of a record's letter, its byte about the cap, and the two halves of the cap.
fn question_of(letter: u8, capped: u8, low: usize, high: usize) -> Question
    requires { (low < 4294967296) × (high < 4294967296) }
{
    let n = low + high * 4294967296;
    let cap = if capped == 0 { None } else { Some(n) };
    Question { letter, cap, n }
}

// Fills a buffer; answers whether the input has so many bytes.
fn filled<R: Read>(input: &mut R, buf: &mut [u8]) -> bool {
    let most = buf.len();
    read_full(input, buf) == most
}

// One case; answers whether there was one.
fn one_case<R: Read>(rt: &HostRuntime, input: &mut R) -> bool {
    let mut head = [0u8; 2];
    let mut numbers = [0u8; 20];
    if !filled(input, &mut head) || !filled(input, &mut numbers) {
        return false;
    }
    let low = number_at(&numbers, 0);
    let high = number_at(&numbers, 1);
    let question = question_of(head[0], head[1], low, high);
    let mut first = [0u8; 65536];
    let mut second = [0u8; 65536];
    let mut third = [0u8; 65536];
    let first = read_part(input, &mut first, number_at(&numbers, 2));
    let second = read_part(input, &mut second, number_at(&numbers, 3));
    let third = read_part(input, &mut third, number_at(&numbers, 4));
    if let (Some(first), Some(second), Some(third)) = (first, second, third) {
        answer(rt, question, first, second, third);
    }
    true
}

// The cases of a file, a million at most.
fn all_cases<R: Read>(rt: &HostRuntime, input: &mut R) {
    for _ in 0..1000000 {
        if !one_case(rt, input) {
            break;
        }
    }
}

// The file that an argument names.
fn answer_file(rt: &HostRuntime, argument: usize) {
    let mut name = [0u8; 4096];
    let n = arg(rt, argument, &mut name);
    print_text(rt, &name[..n]);
    print_text(rt, b"\n");
    if let Ok(mut file) = open(rt, &name[..n]) {
        all_cases(rt, &mut file);
    }
}

fn main(rt: HostRuntime) {
    let rt = &rt;
    for argument in 1..arg_count(rt).min(1000) {
        answer_file(rt, argument);
    }
}
