// The commands' own code on stored files: names, lengths, and results that are written or not. Each prints
// what the command prints, then the bytes of the file that has the result's name by then, on a line.
use programs::printing::{load_from, print, print_formula_from, print_text};
use programs::system::open;
use programs::verdicts::{Check, judge_files, upgrade_file};
use std::rt::HostRuntime;

fn print_file(rt: &HostRuntime, name: &[u8]) {
    match open(rt, name) {
        Ok(mut file) => {
            let mut bytes = [0u8; 65536];
            let loaded = load_from(&mut file, &mut bytes);
            print(rt, &bytes, loaded.len);
            print_text(rt, b"\n");
        }
        Err(_) => print_text(rt, b"no file\n"),
    }
}

// print_formula, with the book's file as its standard input.
pub fn print_formula(rt: &HostRuntime, cap: Option<usize>, book: &[u8], res: &[u8]) {
    if let Ok(mut file) = open(rt, book) {
        let _read = print_formula_from(rt, cap, &mut file);
    }
    print_file(rt, res);
}

// A check; the result is named where its name is not empty.
pub fn judge(
    rt: &HostRuntime,
    check: Check,
    cap: Option<usize>,
    book: &[u8],
    second: &[u8],
    res: &[u8],
) {
    judge_files(rt, check, cap, book, second, res, 0 < res.len());
    print_file(rt, res);
}

// The rewriter.
pub fn upgrade(rt: &HostRuntime, old: &[u8], res: &[u8]) {
    upgrade_file(rt, old, res);
    print_file(rt, res);
}
