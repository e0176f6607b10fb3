// The library that people link, by way of gentupag_c: the entry points under plain names, and what drawings and tools ask
// of a book, so that nobody states a rule of the core a second time. An answer is a struct: a refusal's
// number and detail, or 0, 0 and what was asked for. No function has a `requires`. Assumes nothing.
#![tactic(auto)]

pub mod answers;
mod labels;
mod runs;
mod sizes;
mod variables;

ghost use Rattle.std.specs.Prelude.{◌≡◌, length, pos};
ghost use Rattle.spec.specs.Read.{read_book};
ghost use Rattle.spec.specs.Held.{held_cap};
ghost use Rattle.spec.specs.Entry.{zeroed, write_formula, formula_output, check_assignment, unpack_plan, plan_output, check_plan, assignment_output, check_refutation, check_fewest};
ghost use Rattle.spec.specs.Upgrade.{upgrade_book, upgrade_output};
ghost use Rattle.spec.specs.Page.{print_graph, page_output};
ghost use Rattle.spec.specs.Carriers.{list_carriers, carriers_output};
ghost use Rattle.spec.specs.Library.{measure_book, label_sections, labels_output, ask_run, ask_variable};
ghost use Rattle.refutations.specs.Lent.{lengths};
ghost use Rattle.gentupag.specs.Answers.{verdict_of, output_of, totals_of, sizes_answer, run_answer, variable_answer, cap_asked};

use answers::{Output, Run, Sizes, Totals, Variable, Verdict};
use carriers::list_carriers;
use checking::{check_assignment, check_plan, unpack_plan};
use fewest::check_fewest;
use graph::print_graph;
use labels::label_book;
use reader::reading::read_book;
use refutations::check_refutation;
use runs::run_of;
use sizes::measure_book;
use upgrading::upgrade_book;
use variables::variable_of;
use writing::write_formula;

// The cap that a caller asks for by two numbers: none where the first is 0.
fn cap_from(capped: usize, cap: usize) -> Option<usize>
    ensures { held_cap result ≡ cap_asked capped cap }
{
    if capped == 0 { None } else { Some(cap) }
}

// Whether the bytes are a book.
pub fn gentupag_read_book(book: &[u8]) -> Verdict
    ensures { result ≡ verdict_of (read_book book.now) }
{
    Verdict::from(read_book(book).map(|_| ()))
}

// The sizes of a book: what it counts, and how much its outputs need.
pub fn gentupag_measure_book_under(capped: usize, cap: usize, book: &[u8]) -> Sizes
    ensures { result ≡ sizes_answer (measure_book (cap_asked capped cap) book.now) }
{
    measure_book(cap_from(capped, cap), book)
}

// The formula of a book, written into the output.
pub fn gentupag_write_formula_under(
    capped: usize,
    cap: usize,
    book: &[u8],
    out: &mut [i32],
) -> Totals
    ensures { (result ≡ totals_of (write_formula (cap_asked capped cap) book.now (length out.old)))
        × (out.new ≡ formula_output (cap_asked capped cap) book.now out.old) }
{
    Totals::from(write_formula(cap_from(capped, cap), book, out))
}

// The verdict on an assignment.
pub fn gentupag_judge_assignment_under(
    capped: usize,
    cap: usize,
    book: &[u8],
    values: &[u8],
) -> Verdict
    ensures { result ≡ verdict_of (check_assignment (cap_asked capped cap) book.now values.now) }
{
    Verdict::from(check_assignment(cap_from(capped, cap), book, values))
}

// The verdict on an assignment, its plan in the output.
pub fn gentupag_unpack_plan_under(
    capped: usize,
    cap: usize,
    book: &[u8],
    values: &[u8],
    out: &mut [u8],
) -> Output
    ensures { (result ≡ output_of (unpack_plan (cap_asked capped cap) book.now values.now (length out.old)))
        × (out.new ≡ plan_output (cap_asked capped cap) book.now values.now out.old) }
{
    Output::from(unpack_plan(cap_from(capped, cap), book, values, out))
}

// The verdict on a plan, its assignment in the output.
pub fn gentupag_check_plan_under(
    capped: usize,
    cap: usize,
    book: &[u8],
    plan: &[u8],
    out: &mut [u8],
) -> Output
    ensures { (result ≡ output_of (check_plan (cap_asked capped cap) book.now plan.now (length out.old)))
        × (out.new ≡ assignment_output (cap_asked capped cap) book.now plan.now out.old) }
{
    Output::from(check_plan(cap_from(capped, cap), book, plan, out))
}

// The verdict on a refutation; all four slices are zero after it.
pub fn gentupag_check_refutation_under(
    capped: usize,
    cap: usize,
    book: &[u8],
    refutation: &[u8],
    words: &mut [i32],
    clauses: &mut [usize],
    values: &mut [u8],
    trail: &mut [usize],
) -> Verdict
    ensures { (result ≡ verdict_of (check_refutation (cap_asked capped cap) book.now refutation.now
        (lengths words.old clauses.old values.old trail.old)))
        × (words.new ≡ zeroed (pos 0) (length words.old))
        × (clauses.new ≡ zeroed 0 (length clauses.old))
        × (values.new ≡ zeroed 0 (length values.old))
        × (trail.new ≡ zeroed 0 (length trail.old)) }
{
    Verdict::from(check_refutation(
        cap_from(capped, cap),
        book,
        refutation,
        words,
        clauses,
        values,
        trail,
    ))
}

// The combined verdict on n; all four slices are zero after it.
pub fn gentupag_check_fewest(
    book: &[u8],
    n: usize,
    assignment: &[u8],
    refutation: &[u8],
    words: &mut [i32],
    clauses: &mut [usize],
    values: &mut [u8],
    trail: &mut [usize],
) -> Verdict
    ensures { (result ≡ verdict_of (check_fewest book.now n assignment.now refutation.now
        (lengths words.old clauses.old values.old trail.old)))
        × (words.new ≡ zeroed (pos 0) (length words.old))
        × (clauses.new ≡ zeroed 0 (length clauses.old))
        × (values.new ≡ zeroed 0 (length values.old))
        × (trail.new ≡ zeroed 0 (length trail.old)) }
{
    Verdict::from(check_fewest(
        book, n, assignment, refutation, words, clauses, values, trail,
    ))
}

// The label of each segment's section under a set of borders, in the output.
pub fn gentupag_label_sections(book: &[u8], borders: &[u8], out: &mut [u8]) -> Output
    ensures { (result ≡ output_of (label_sections book.now borders.now (length out.old)))
        × (out.new ≡ labels_output book.now borders.now out.old) }
{
    Output::from(label_book(book, borders, out))
}

// A run of a train, by its number in the train's list.
pub fn gentupag_show_run(book: &[u8], train: usize, run: usize) -> Run
    ensures { result ≡ run_answer (ask_run book.now train run) }
{
    run_of(book, train, run)
}

// What a variable stands for, counted from 1 as in the formula's text.
pub fn gentupag_explain_variable_under(
    capped: usize,
    cap: usize,
    book: &[u8],
    variable: usize,
) -> Variable
    ensures { result ≡ variable_answer (ask_variable (cap_asked capped cap) book.now variable) }
{
    variable_of(cap_from(capped, cap), book, variable)
}

// An old book rewritten in the format in force, in the output.
pub fn gentupag_upgrade_book(old: &[u8], out: &mut [u8]) -> Output
    ensures { (result ≡ output_of (upgrade_book old.now (length out.old)))
        × (out.new ≡ upgrade_output old.now out.old) }
{
    Output::from(upgrade_book(old, out))
}

// The train graph of a plan that keeps the rules, as a page in the output.
pub fn gentupag_print_graph(book: &[u8], plan: &[u8], out: &mut [u8]) -> Output
    ensures { (result ≡ output_of (print_graph book.now plan.now (length out.old)))
        × (out.new ≡ page_output book.now plan.now out.old) }
{
    Output::from(print_graph(book, plan, out))
}

// The borders that carry a plan that keeps the rules, listed in the output.
pub fn gentupag_list_carriers(book: &[u8], plan: &[u8], out: &mut [u8]) -> Output
    ensures { (result ≡ output_of (list_carriers book.now plan.now (length out.old)))
        × (out.new ≡ carriers_output book.now plan.now out.old) }
{
    Output::from(list_carriers(book, plan, out))
}
