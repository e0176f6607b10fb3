// The verdicts on assignments, plans, refutations and old books, and train graphs. What is lent holds something already.
ghost use Rattle.std.specs.Prelude.{◌≡◌, length};

use crate::lent::lent;
use fewest::check_fewest;
use graph::print_graph;
use model::Refusal;
use programs::printing::{print, print_text};
use programs::verdicts::{
    Check, Said, refutation_text, tell, tell_plain, upgrade_text, verdict_text,
};
use std::rt::HostRuntime;

// The verdict of a check, with as much of the output lent as the numbers say.
fn verdict(
    check: Check,
    cap: Option<usize>,
    book: &[u8],
    second: &[u8],
    numbers: &[u8],
    out: &mut [u8],
    line: &mut [u8],
) -> Said
    requires { length line.old ≡ 64 }
{
    let n = lent(numbers, 0, out.len());
    verdict_text(check, cap, book, second, false, &mut out[..n], line)
}

// A verdict's line and, where it is accepted, its result on a line.
fn print_said(rt: &HostRuntime, said: Said, line: &[u8], out: &[u8]) {
    print(rt, line, said.len);
    if let Some(n) = said.result {
        if 0 < n {
            print(rt, out, n);
            print_text(rt, b"\n");
        }
    }
}

pub fn judge(
    rt: &HostRuntime,
    check: Check,
    cap: Option<usize>,
    book: &[u8],
    second: &[u8],
    numbers: &[u8],
) {
    let mut out = [7u8; 65536];
    let mut line = [0u8; 64];
    let said = verdict(check, cap, book, second, numbers, &mut out, &mut line);
    print_said(rt, said, &line, &out);
}

// The verdict on an assignment that is unpacked, then on the same one judged alone.
pub fn judge_assignment(
    rt: &HostRuntime,
    cap: Option<usize>,
    book: &[u8],
    second: &[u8],
    numbers: &[u8],
) {
    judge(rt, Check::Unpacking, cap, book, second, numbers);
    judge(rt, Check::Assignment, cap, book, second, numbers);
}

// The answer to a plan whose train graph is asked for, with as much of the output lent as the numbers say.
fn drawn(book: &[u8], plan: &[u8], numbers: &[u8], out: &mut [u8]) -> Result<usize, Refusal> {
    let n = lent(numbers, 0, out.len());
    print_graph(book, plan, &mut out[..n])
}

// Its line and, where it is accepted, the page on a line.
pub fn draw(rt: &HostRuntime, book: &[u8], plan: &[u8], numbers: &[u8]) {
    let mut out = [7u8; 65536];
    let mut line = [0u8; 64];
    let said = tell(drawn(book, plan, numbers, &mut out), &mut line);
    print_said(rt, said, &line, &out);
}

// The verdict on an old book, with as much of the output lent as the numbers say.
fn upgraded(old: &[u8], numbers: &[u8], out: &mut [u8], line: &mut [u8]) -> Said
    requires { length line.old ≡ 64 }
{
    let n = lent(numbers, 0, out.len());
    upgrade_text(old, false, &mut out[..n], line)
}

// Its line and, where it is accepted, the new book on a line.
pub fn upgrade(rt: &HostRuntime, old: &[u8], numbers: &[u8]) {
    let mut out = [7u8; 65536];
    let mut line = [0u8; 64];
    let said = upgraded(old, numbers, &mut out, &mut line);
    print_said(rt, said, &line, &out);
}

// The verdict on a refutation, with as much of the slices lent as the numbers say.
fn refutation(
    rt: &HostRuntime,
    cap: Option<usize>,
    book: &[u8],
    r: &[u8],
    numbers: &[u8],
    words: &mut [i32],
    starts: &mut [usize],
    values: &mut [u8],
    trail: &mut [usize],
) {
    let mut line = [0u8; 64];
    let w = lent(numbers, 0, words.len());
    let n = lent(numbers, 1, starts.len());
    let v = lent(numbers, 2, values.len());
    let t = lent(numbers, 3, trail.len());
    let said = refutation_text(
        cap,
        book,
        r,
        &mut words[..w],
        &mut starts[..n],
        &mut values[..v],
        &mut trail[..t],
        &mut line,
    );
    print(rt, &line, said.len);
}

// The verdict's line.
pub fn refute(rt: &HostRuntime, cap: Option<usize>, book: &[u8], r: &[u8], numbers: &[u8]) {
    let mut words = [-7i32; 16384];
    let mut starts = [9usize; 8192];
    let mut values = [2u8; 65536];
    let mut trail = [5usize; 8192];
    refutation(
        rt,
        cap,
        book,
        r,
        numbers,
        &mut words,
        &mut starts,
        &mut values,
        &mut trail,
    );
}

// The combined verdict on n, with as much of the slices lent as the numbers say.
fn counted(
    rt: &HostRuntime,
    book: &[u8],
    n: usize,
    assignment: &[u8],
    numbers: &[u8],
    r: &[u8],
    words: &mut [i32],
    starts: &mut [usize],
    values: &mut [u8],
    trail: &mut [usize],
) {
    let mut line = [0u8; 64];
    let w = lent(numbers, 0, words.len());
    let c = lent(numbers, 1, starts.len());
    let v = lent(numbers, 2, values.len());
    let t = lent(numbers, 3, trail.len());
    let answer = check_fewest(
        book,
        n,
        assignment,
        r,
        &mut words[..w],
        &mut starts[..c],
        &mut values[..v],
        &mut trail[..t],
    );
    let said = tell_plain(answer, &mut line);
    print(rt, &line, said.len);
}

// The verdict's line. The refutation stands behind the four numbers.
pub fn fewest(rt: &HostRuntime, book: &[u8], n: usize, assignment: &[u8], third: &[u8]) {
    if third.len() < 16 {
        return;
    }
    let mut words = [-7i32; 16384];
    let mut starts = [9usize; 8192];
    let mut values = [2u8; 65536];
    let mut trail = [5usize; 8192];
    counted(
        rt,
        book,
        n,
        assignment,
        &third[..16],
        &third[16..],
        &mut words,
        &mut starts,
        &mut values,
        &mut trail,
    );
}
