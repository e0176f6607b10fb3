// What C and Rust link, libgentupag.a: each function of the library under its own name, with the same contract.
// Assumes nothing.
#![tactic(auto)]

ghost use Rattle.std.specs.Prelude.{◌≡◌, length, pos};
ghost use Rattle.spec.specs.Read.{read_book};
ghost use Rattle.spec.specs.Entry.{zeroed, write_formula, formula_output, check_assignment, unpack_plan, plan_output, check_plan, assignment_output, check_refutation, check_fewest};
ghost use Rattle.spec.specs.Upgrade.{upgrade_book, upgrade_output};
ghost use Rattle.spec.specs.Page.{print_graph, page_output};
ghost use Rattle.spec.specs.Carriers.{list_carriers, carriers_output};
ghost use Rattle.spec.specs.Library.{measure_book, label_sections, labels_output, ask_run, ask_variable};
ghost use Rattle.refutations.specs.Lent.{lengths};
ghost use Rattle.gentupag.specs.Answers.{verdict_of, output_of, totals_of, sizes_answer, run_answer, variable_answer, cap_asked};

use gentupag::answers::{Output, Run, Sizes, Totals, Variable, Verdict};

// Whether the bytes are a book.
#[unsafe(no_mangle)]
pub extern "C" fn gentupag_read_book(book: &[u8]) -> Verdict
    ensures { result ≡ verdict_of (read_book book.now) }
{
    gentupag::gentupag_read_book(book)
}

// The sizes of a book: what it counts, and how much its outputs need.
#[unsafe(no_mangle)]
pub extern "C" fn gentupag_measure_book_under(capped: usize, cap: usize, book: &[u8]) -> Sizes
    ensures { result ≡ sizes_answer (measure_book (cap_asked capped cap) book.now) }
{
    gentupag::gentupag_measure_book_under(capped, cap, book)
}

// The formula of a book, written into the output.
#[unsafe(no_mangle)]
pub extern "C" fn gentupag_write_formula_under(
    capped: usize,
    cap: usize,
    book: &[u8],
    out: &mut [i32],
) -> Totals
    ensures { (result ≡ totals_of (write_formula (cap_asked capped cap) book.now (length out.old)))
        × (out.new ≡ formula_output (cap_asked capped cap) book.now out.old) }
{
    gentupag::gentupag_write_formula_under(capped, cap, book, out)
}

// The verdict on an assignment.
#[unsafe(no_mangle)]
pub extern "C" fn gentupag_judge_assignment_under(
    capped: usize,
    cap: usize,
    book: &[u8],
    values: &[u8],
) -> Verdict
    ensures { result ≡ verdict_of (check_assignment (cap_asked capped cap) book.now values.now) }
{
    gentupag::gentupag_judge_assignment_under(capped, cap, book, values)
}

// The verdict on an assignment, its plan in the output.
#[unsafe(no_mangle)]
pub extern "C" fn gentupag_unpack_plan_under(
    capped: usize,
    cap: usize,
    book: &[u8],
    values: &[u8],
    out: &mut [u8],
) -> Output
    ensures { (result ≡ output_of (unpack_plan (cap_asked capped cap) book.now values.now (length out.old)))
        × (out.new ≡ plan_output (cap_asked capped cap) book.now values.now out.old) }
{
    gentupag::gentupag_unpack_plan_under(capped, cap, book, values, out)
}

// The verdict on a plan, its assignment in the output.
#[unsafe(no_mangle)]
pub extern "C" fn gentupag_check_plan_under(
    capped: usize,
    cap: usize,
    book: &[u8],
    plan: &[u8],
    out: &mut [u8],
) -> Output
    ensures { (result ≡ output_of (check_plan (cap_asked capped cap) book.now plan.now (length out.old)))
        × (out.new ≡ assignment_output (cap_asked capped cap) book.now plan.now out.old) }
{
    gentupag::gentupag_check_plan_under(capped, cap, book, plan, out)
}

// The verdict on a refutation; all four slices are zero after it.
#[unsafe(no_mangle)]
pub extern "C" fn gentupag_check_refutation_under(
    capped: usize,
    cap: usize,
    book: &[u8],
    refutation: &[u8],
    words: &mut [i32],
    clauses: &mut [usize],
    values: &mut [u8],
    trail: &mut [usize],
) -> Verdict
    ensures { (result ≡ verdict_of (check_refutation (cap_asked capped cap) book.now refutation.now
        (lengths words.old clauses.old values.old trail.old)))
        × (words.new ≡ zeroed (pos 0) (length words.old))
        × (clauses.new ≡ zeroed 0 (length clauses.old))
        × (values.new ≡ zeroed 0 (length values.old))
        × (trail.new ≡ zeroed 0 (length trail.old)) }
{
    gentupag::gentupag_check_refutation_under(
        capped, cap, book, refutation, words, clauses, values, trail,
    )
}

// The combined verdict on n; all four slices are zero after it.
#[unsafe(no_mangle)]
pub extern "C" fn gentupag_check_fewest(
    book: &[u8],
    n: usize,
    assignment: &[u8],
    refutation: &[u8],
    words: &mut [i32],
    clauses: &mut [usize],
    values: &mut [u8],
    trail: &mut [usize],
) -> Verdict
    ensures { (result ≡ verdict_of (check_fewest book.now n assignment.now refutation.now
        (lengths words.old clauses.old values.old trail.old)))
        × (words.new ≡ zeroed (pos 0) (length words.old))
        × (clauses.new ≡ zeroed 0 (length clauses.old))
        × (values.new ≡ zeroed 0 (length values.old))
        × (trail.new ≡ zeroed 0 (length trail.old)) }
{
    gentupag::gentupag_check_fewest(
        book, n, assignment, refutation, words, clauses, values, trail,
    )
}

// The label of each segment's section under a set of borders, in the output.
#[unsafe(no_mangle)]
pub extern "C" fn gentupag_label_sections(book: &[u8], borders: &[u8], out: &mut [u8]) -> Output
    ensures { (result ≡ output_of (label_sections book.now borders.now (length out.old)))
        × (out.new ≡ labels_output book.now borders.now out.old) }
{
    gentupag::gentupag_label_sections(book, borders, out)
}

// A run of a train, by its number in the train's list.
#[unsafe(no_mangle)]
pub extern "C" fn gentupag_show_run(book: &[u8], train: usize, run: usize) -> Run
    ensures { result ≡ run_answer (ask_run book.now train run) }
{
    gentupag::gentupag_show_run(book, train, run)
}

// What a variable stands for, counted from 1 as in the formula's text.
#[unsafe(no_mangle)]
pub extern "C" fn gentupag_explain_variable_under(
    capped: usize,
    cap: usize,
    book: &[u8],
    variable: usize,
) -> Variable
    ensures { result ≡ variable_answer (ask_variable (cap_asked capped cap) book.now variable) }
{
    gentupag::gentupag_explain_variable_under(capped, cap, book, variable)
}

// An old book rewritten in the format in force, in the output.
#[unsafe(no_mangle)]
pub extern "C" fn gentupag_upgrade_book(old: &[u8], out: &mut [u8]) -> Output
    ensures { (result ≡ output_of (upgrade_book old.now (length out.old)))
        × (out.new ≡ upgrade_output old.now out.old) }
{
    gentupag::gentupag_upgrade_book(old, out)
}

// The train graph of a plan that keeps the rules, as a page in the output.
#[unsafe(no_mangle)]
pub extern "C" fn gentupag_print_graph(book: &[u8], plan: &[u8], out: &mut [u8]) -> Output
    ensures { (result ≡ output_of (print_graph book.now plan.now (length out.old)))
        × (out.new ≡ page_output book.now plan.now out.old) }
{
    gentupag::gentupag_print_graph(book, plan, out)
}

// The borders that carry a plan that keeps the rules, listed in the output.
#[unsafe(no_mangle)]
pub extern "C" fn gentupag_list_carriers(book: &[u8], plan: &[u8], out: &mut [u8]) -> Output
    ensures { (result ≡ output_of (list_carriers book.now plan.now (length out.old)))
        × (out.new ≡ carriers_output book.now plan.now out.old) }
{
    gentupag::gentupag_list_carriers(book, plan, out)
}
