// cabinet COMMAND ..: the commands over the core, one program for all.
//
//   print_formula [--cap N] < BOOK            prints the book's formula in DIMACS CNF
//   check_assignment [--cap N] BOOK ASSIGNMENT [PLAN]
//                                             with a third name an accepted assignment's plan goes there
//   check_plan [--cap N] BOOK PLAN [ASSIGNMENT]
//                                             an accepted plan is written as an assignment
//   check_refutation [--cap N] BOOK REFUTATION
//   check_fewest BOOK N ASSIGNMENT REFUTATION whether N is the fewest borders of kind 1 that a plan sets
//   upgrade_book OLD NEW                      an old book is rewritten in the format in force
//   print_graph BOOK PLAN                     prints an accepted plan's train graph
//   list_carriers BOOK PLAN OUT               lists the borders that carry an accepted plan
//
// With --cap N the formula is that of plans that set at most N nodes of kind 1. A check, the list and the
// rewriter print accepted; every command prints a refusal as its number, a blank and its detail. A slice has at
// most 64 KiB: longer input is refused by 12 first. An N that is no number of 64 bits is a usage message, and so
// is a cap for a command that takes none.
#![tactic(auto)]

mod commands;

ghost use Rattle.std.specs.Prelude.{◌≤◌, IfSome};

use check::same;
use commands::{Command, named};
use programs::arguments::number_in;
use programs::printing::print_formula_from;
use programs::system::{arg, arg_count, complain};
use programs::verdicts::{Check, fewest_files, graph_files, judge_files, upgrade_file};
use std::io::Input;
use std::rt::HostRuntime;

// The number that the argument in this place is, if it is one.
fn number_at(rt: &HostRuntime, place: usize) -> Option<usize> {
    let mut word = [0u8; 4096];
    let n = arg(rt, place, &mut word);
    number_in(&word[..n])
}

// What stands ahead of the names: the cap, and where the names begin.
#[derive(Clone, Copy, Debug, PartialEq, Eq)]
struct Ahead {
    cap: Option<usize>,
    names: usize,
}

// Whether a cap stands behind the command.
fn has_option(rt: &HostRuntime) -> bool {
    let mut word = [0u8; 4096];
    let n = arg(rt, 2, &mut word);
    same(&word[..n], b"--cap")
}

// Reads the option behind the command, if it is there; nothing where its cap is no number.
fn read_option(rt: &HostRuntime) -> Option<Ahead>
    ensures { IfSome result (λ a. a.names ≤ 4) }
{
    if !has_option(rt) {
        return Some(Ahead {
            cap: None,
            names: 2,
        });
    }
    let most = number_at(rt, 3)?;
    Some(Ahead {
        cap: Some(most),
        names: 4,
    })
}

fn print_formula(rt: &HostRuntime) {
    match read_option(rt) {
        Some(ahead) if arg_count(rt) == ahead.names => {
            if print_formula_from(rt, ahead.cap, &mut rt.reader()).is_err() {
                complain(rt, b"print_formula: standard input can't be read\n");
            }
        }
        _ => complain(rt, b"usage: print_formula [--cap N] < BOOK\n"),
    }
}

// Judges the files of the names from a place on: the book's, the second input's and, if there is a third, the
// result's.
fn judge_names(rt: &HostRuntime, check: Check, cap: Option<usize>, place: usize, named: bool)
    requires { place ≤ 4 }
{
    let mut book = [0u8; 4096];
    let mut second = [0u8; 4096];
    let mut result = [0u8; 4096];
    let n = arg(rt, place, &mut book);
    let m = arg(rt, place + 1, &mut second);
    let k = arg(rt, place + 2, &mut result);
    judge_files(
        rt,
        check,
        cap,
        &book[..n],
        &second[..m],
        &result[..k],
        named,
    );
}

// Judges the files that the arguments behind the command name, of which there are so many, under the cap, if one
// is given.
fn judge(rt: &HostRuntime, check: Check, least: usize, most: usize, usage: &[u8])
    requires { (least ≤ 3) × (most ≤ 3) }
{
    let words = arg_count(rt);
    match read_option(rt) {
        Some(ahead) if ahead.names + least <= words && words <= ahead.names + most => {
            judge_names(rt, check, ahead.cap, ahead.names, words == ahead.names + 3);
        }
        _ => complain(rt, usage),
    }
}

fn carriers(rt: &HostRuntime) {
    if arg_count(rt) != 5 || has_option(rt) {
        complain(rt, b"usage: list_carriers BOOK PLAN OUT\n");
        return;
    }
    judge_names(rt, Check::Carriers, None, 2, true);
}

// Judges the files of an assignment and of a refutation together.
fn judge_both(rt: &HostRuntime, n: usize) {
    let mut book = [0u8; 4096];
    let mut assignment = [0u8; 4096];
    let mut refutation = [0u8; 4096];
    let i = arg(rt, 2, &mut book);
    let j = arg(rt, 4, &mut assignment);
    let k = arg(rt, 5, &mut refutation);
    fewest_files(rt, &book[..i], n, &assignment[..j], &refutation[..k]);
}

fn fewest(rt: &HostRuntime) {
    match number_at(rt, 3) {
        Some(n) if arg_count(rt) == 6 && !has_option(rt) => judge_both(rt, n),
        _ => complain(rt, b"usage: check_fewest BOOK N ASSIGNMENT REFUTATION\n"),
    }
}

fn upgrade(rt: &HostRuntime) {
    if arg_count(rt) != 4 || has_option(rt) {
        complain(rt, b"usage: upgrade_book OLD NEW\n");
        return;
    }
    let mut old = [0u8; 4096];
    let mut new = [0u8; 4096];
    let n = arg(rt, 2, &mut old);
    let m = arg(rt, 3, &mut new);
    upgrade_file(rt, &old[..n], &new[..m]);
}

fn graph(rt: &HostRuntime) {
    if arg_count(rt) != 4 || has_option(rt) {
        complain(rt, b"usage: print_graph BOOK PLAN\n");
        return;
    }
    let mut book = [0u8; 4096];
    let mut plan = [0u8; 4096];
    let n = arg(rt, 2, &mut book);
    let m = arg(rt, 3, &mut plan);
    graph_files(rt, &book[..n], &plan[..m]);
}

fn main(rt: HostRuntime) {
    let rt = &rt;
    let mut word = [0u8; 4096];
    let n = arg(rt, 1, &mut word);
    match named(&word[..n]) {
        Some(Command::PrintFormula) => print_formula(rt),
        Some(Command::CheckAssignment) => judge(
            rt,
            Check::Assignment,
            2,
            3,
            b"usage: check_assignment [--cap N] BOOK ASSIGNMENT [PLAN]\n",
        ),
        Some(Command::CheckPlan) => judge(
            rt,
            Check::Plan,
            2,
            3,
            b"usage: check_plan [--cap N] BOOK PLAN [ASSIGNMENT]\n",
        ),
        Some(Command::CheckRefutation) => judge(
            rt,
            Check::Refutation,
            2,
            2,
            b"usage: check_refutation [--cap N] BOOK REFUTATION\n",
        ),
        Some(Command::CheckFewest) => fewest(rt),
        Some(Command::UpgradeBook) => upgrade(rt),
        Some(Command::PrintGraph) => graph(rt),
        Some(Command::ListCarriers) => carriers(rt),
        None => {
            complain(rt, b"usage: cabinet print_formula [--cap N] < BOOK\n");
            complain(
                rt,
                b"       cabinet check_assignment [--cap N] BOOK ASSIGNMENT [PLAN]\n",
            );
            complain(
                rt,
                b"       cabinet check_plan [--cap N] BOOK PLAN [ASSIGNMENT]\n",
            );
            complain(
                rt,
                b"       cabinet check_refutation [--cap N] BOOK REFUTATION\n",
            );
            complain(
                rt,
                b"       cabinet check_fewest BOOK N ASSIGNMENT REFUTATION\n",
            );
            complain(rt, b"       cabinet upgrade_book OLD NEW\n");
            complain(rt, b"       cabinet print_graph BOOK PLAN\n");
            complain(rt, b"       cabinet list_carriers BOOK PLAN OUT\n");
        }
    }
}
