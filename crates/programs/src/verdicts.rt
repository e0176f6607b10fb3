// The programs over the checks, the list of carriers, the train graph and the rewriter: their files, and
// what they print. `verdict_text` and `upgrade_text` make the line of a verdict, 12 first where an input is
// too long, and the result where there is one; `graph_text` makes the page or the line of the refusal. Their
// contracts say that these are the specification's. The functions over files promise nothing of them: they
// read files by their names, and hand bytes to the output and to a file. A slice has at most 64 KiB.
ghost use Rattle.std.specs.Prelude.{◌≡◌, ◌≤◌, length, pos, IfSome};
ghost use Rattle.std.proofs.lemmas.List.Edits.{sets};
ghost use Rattle.spec.specs.Lists.{Bytes, Verdict};
ghost use Rattle.spec.specs.Answers.{told, accepted_as};
ghost use Rattle.spec.specs.Held.{held_cap};
ghost use Rattle.spec.specs.Entry.{overwrite, written, zeroed, check_assignment, unpack_plan, check_plan, check_refutation, check_fewest};
ghost use Rattle.spec.specs.Upgrade.{upgrade_book};
ghost use Rattle.spec.specs.Page.{print_graph};
ghost use Rattle.spec.specs.Carriers.{list_carriers};
ghost use Rattle.spec.specs.Programs.{program_lent, unless_long, printed};
ghost use Rattle.refutations.specs.Lent.{lengths};
ghost use Rattle.programs.specs.Verdicts.{numbers_told, bare, verdict_of, has_result, asked_check, Tells};
ghost use Rattle.programs.specs.Loaded.{IsPrefixLen};

use crate::dimacs::put_refusal;
use crate::printing::{Loaded, load_whole, print};
use crate::system::{create, fail, open};
use carriers::list_carriers;
use checking::{check_assignment, check_plan, unpack_plan};
use fewest::check_fewest;
use frames::bytes::put_bytes;
use graph::print_graph;
use model::Refusal;
use refutations::check_refutation;
use std::io::Write;
use std::rt::HostRuntime;
use upgrading::upgrade_book;

// Which check a program makes. An assignment is judged alone, or judged and unpacked; the carriers are
// listed of a plan that is checked.
#[derive(Clone, Copy, Debug, PartialEq, Eq)]
pub enum Check {
    Assignment,
    Unpacking,
    Plan,
    Refutation,
    Carriers,
}

// How many bytes are printed, and, where the answer is accepted, how many bytes its result has.
#[derive(Clone, Copy, Debug, PartialEq, Eq)]
pub struct Said {
    pub len: usize,
    pub result: Option<usize>,
}

// Stores the line of an answer: how many bytes its result has, or the number and the detail of a refusal.
pub fn say(answer: Result<usize, (usize, usize)>, line: &mut [u8]) -> Said
    requires { length line.old ≡ 64 }
    ensures { (v : Verdict Bytes) → numbers_told answer ≡ accepted_as length v → Tells v line.old line.new result }
{
    match answer {
        Ok(n) => Said {
            len: put_bytes(line, 0, b"accepted\n"),
            result: Some(n),
        },
        Err((number, detail)) => Said {
            len: put_refusal(line, number, detail),
            result: None,
        },
    }
}

// Stores the line of an answer that has no result, as of one with an empty result.
pub fn say_plain(answer: Result<(), (usize, usize)>, line: &mut [u8]) -> Said
    requires { length line.old ≡ 64 }
    ensures { (v : Verdict (Unit {0})) → numbers_told answer ≡ v → Tells (bare v) line.old line.new result }
{
    match answer {
        Ok(()) => say(Ok(0), line),
        Err((number, detail)) => say(Err((number, detail)), line),
    }
}

// The same of an answer whose refusal has a name.
pub fn tell(answer: Result<usize, Refusal>, line: &mut [u8]) -> Said
    requires { length line.old ≡ 64 }
    ensures { (v : Verdict Bytes) → told answer ≡ accepted_as length v → Tells v line.old line.new result }
{
    match answer {
        Ok(n) => say(Ok(n), line),
        Err(refusal) => say(Err((refusal.number(), refusal.detail())), line),
    }
}

// The same of an answer without a result, whose refusal has a name.
pub fn tell_plain(answer: Result<(), Refusal>, line: &mut [u8]) -> Said
    requires { length line.old ≡ 64 }
    ensures { (v : Verdict (Unit {0})) → told answer ≡ v → Tells (bare v) line.old line.new result }
{
    match answer {
        Ok(()) => say_plain(Ok(()), line),
        Err(refusal) => say_plain(Err((refusal.number(), refusal.detail())), line),
    }
}

// The line of the verdict on an assignment that is judged alone: nothing is lent for a plan.
fn assignment_text(cap: Option<usize>, book: &[u8], values: &[u8], line: &mut [u8]) -> Said
    requires { length line.old ≡ 64 }
    ensures { Tells (bare (check_assignment (held_cap cap) book.now values.now)) line.old line.new result }
{
    tell_plain(check_assignment(cap, book, values), line)
}

// The line of the verdict on an assignment, and its plan.
fn unpacking_text(
    cap: Option<usize>,
    book: &[u8],
    values: &[u8],
    plan: &mut [u8],
    line: &mut [u8],
) -> Said
    requires { length line.old ≡ 64 }
    ensures { Tells (unpack_plan (held_cap cap) book.now values.now (length plan.old))
        line.old line.new result
        × (plan.new ≡ overwrite plan.old
        (written (unpack_plan (held_cap cap) book.now values.now (length plan.old)))) }
{
    tell(unpack_plan(cap, book, values, plan), line)
}

// The line of the verdict on a plan, and its assignment.
fn plan_text(
    cap: Option<usize>,
    book: &[u8],
    plan: &[u8],
    values: &mut [u8],
    line: &mut [u8],
) -> Said
    requires { length line.old ≡ 64 }
    ensures { Tells (check_plan (held_cap cap) book.now plan.now (length values.old))
        line.old line.new result
        × (values.new ≡ overwrite values.old
        (written (check_plan (held_cap cap) book.now plan.now (length values.old)))) }
{
    tell(check_plan(cap, book, plan, values), line)
}

// The line of the verdict on a plan, and the list of its carriers.
fn carriers_text(book: &[u8], plan: &[u8], list: &mut [u8], line: &mut [u8]) -> Said
    requires { length line.old ≡ 64 }
    ensures { Tells (list_carriers book.now plan.now (length list.old))
        line.old line.new result
        × (list.new ≡ overwrite list.old
        (written (list_carriers book.now plan.now (length list.old)))) }
{
    tell(list_carriers(book, plan, list), line)
}

// The line of the verdict on a refutation, which has no result.
pub fn refutation_text(
    cap: Option<usize>,
    book: &[u8],
    r: &[u8],
    words: &mut [i32],
    starts: &mut [usize],
    values: &mut [u8],
    trail: &mut [usize],
    line: &mut [u8],
) -> Said
    requires { length line.old ≡ 64 }
    ensures { Tells (bare (check_refutation (held_cap cap) book.now r.now
        (lengths words.old starts.old values.old trail.old))) line.old line.new result
        × (words.new ≡ zeroed (pos 0) (length words.old))
        × (starts.new ≡ zeroed 0 (length starts.old))
        × (values.new ≡ zeroed 0 (length values.old))
        × (trail.new ≡ zeroed 0 (length trail.old)) }
{
    tell_plain(
        check_refutation(cap, book, r, words, starts, values, trail),
        line,
    )
}

// The same, with slices of 64 KiB each.
fn lent_refutation_text(cap: Option<usize>, book: &[u8], r: &[u8], line: &mut [u8]) -> Said
    requires { length line.old ≡ 64 }
    ensures { Tells (bare (check_refutation (held_cap cap) book.now r.now program_lent)) line.old line.new result }
{
    let mut words = [0i32; 16384];
    let mut starts = [0usize; 8192];
    let mut values = [0u8; 65536];
    let mut trail = [0usize; 8192];
    refutation_text(
        cap,
        book,
        r,
        &mut words,
        &mut starts,
        &mut values,
        &mut trail,
        line,
    )
}

// The line of the combined verdict on n, with slices of 64 KiB each.
fn lent_fewest_text(
    book: &[u8],
    n: usize,
    assignment: &[u8],
    refutation: &[u8],
    line: &mut [u8],
) -> Said
    requires { length line.old ≡ 64 }
    ensures { Tells (bare (check_fewest book.now n assignment.now refutation.now program_lent))
        line.old line.new result }
{
    let mut words = [0i32; 16384];
    let mut starts = [0usize; 8192];
    let mut values = [0u8; 65536];
    let mut trail = [0usize; 8192];
    tell_plain(
        check_fewest(
            book,
            n,
            assignment,
            refutation,
            &mut words,
            &mut starts,
            &mut values,
            &mut trail,
        ),
        line,
    )
}

// What check_fewest says of a book, n and both of a solver's inputs: the line of the verdict in `line`. Where an
// input is too long, `long`, none is looked at, and the refusal is 12.
pub fn fewest_text(
    book: &[u8],
    n: usize,
    assignment: &[u8],
    refutation: &[u8],
    long: bool,
    line: &mut [u8],
) -> Said
    requires { length line.old ≡ 64 }
    ensures { Tells (unless_long long (bare (check_fewest book.now n assignment.now refutation.now program_lent)))
        line.old line.new result }
{
    if long {
        return tell(Err(Refusal::NoRoom), line);
    }
    lent_fewest_text(book, n, assignment, refutation, line)
}

// What a program says of a book and a second input, under a cap or none: the line of the verdict in `line`, and the result, if
// there is one, at the start of `out`. Where an input is too long, `long`, neither is looked at, and the
// refusal is 12.
pub fn verdict_text(
    check: Check,
    cap: Option<usize>,
    book: &[u8],
    second: &[u8],
    long: bool,
    out: &mut [u8],
    line: &mut [u8],
) -> Said
    requires { length line.old ≡ 64 }
    ensures { Tells (unless_long long (verdict_of check (held_cap cap) book.now second.now (length out.old)))
        line.old line.new result
        × (out.new ≡ overwrite out.old
        (written (unless_long long (verdict_of check (held_cap cap) book.now second.now (length out.old))))) }
{
    if long {
        return tell(Err(Refusal::NoRoom), line);
    }
    match check {
        Check::Assignment => assignment_text(cap, book, second, line),
        Check::Unpacking => unpacking_text(cap, book, second, out, line),
        Check::Plan => plan_text(cap, book, second, out, line),
        Check::Refutation => lent_refutation_text(cap, book, second, line),
        Check::Carriers => carriers_text(book, second, out, line),
    }
}

// What upgrade_book says of an old book: the same, with the new book as the result.
pub fn upgrade_text(old: &[u8], long: bool, out: &mut [u8], line: &mut [u8]) -> Said
    requires { length line.old ≡ 64 }
    ensures { Tells (unless_long long (upgrade_book old.now (length out.old)))
        line.old line.new result
        × (out.new ≡ overwrite out.old (written (unless_long long (upgrade_book old.now (length out.old))))) }
{
    if long {
        return tell(Err(Refusal::NoRoom), line);
    }
    tell(upgrade_book(old, out), line)
}

// What print_graph prints of a book and a plan, stored at the start of `out`: the page, or the line of the
// refusal, which is 12 where an input is too long, `long`; answers how many bytes that is.
pub fn graph_text(book: &[u8], plan: &[u8], long: bool, out: &mut [u8]) -> usize
    requires { 64 ≤ length out.old }
    ensures { (result ≡ length (printed (λ page. page) (unless_long long (print_graph book.now plan.now (length out.old)))))
        × (out.new ≡ overwrite out.old
        (printed (λ page. page) (unless_long long (print_graph book.now plan.now (length out.old))))) }
{
    if long {
        let refusal = Refusal::NoRoom;
        return put_refusal(out, refusal.number(), refusal.detail());
    }
    match print_graph(book, plan, out) {
        Ok(n) => n,
        Err(refusal) => put_refusal(out, refusal.number(), refusal.detail()),
    }
}

// Reads the file of this name; where it can't be read, standard error says why.
fn load(rt: &HostRuntime, name: &[u8], buf: &mut [u8]) -> Option<Loaded>
    ensures { IfSome result (λ l. IsPrefixLen l.len buf.new) }
{
    match open(rt, name) {
        Ok(mut file) => match load_whole(&mut file, buf) {
            Ok(loaded) => Some(loaded),
            Err(error) => {
                fail(rt, name, error);
                None
            }
        },
        Err(error) => {
            fail(rt, name, error);
            None
        }
    }
}

// Writes bytes into the file of this name; where it can't be written, standard error says why.
fn save(rt: &HostRuntime, name: &[u8], bytes: &[u8]) {
    match create(rt, name) {
        Ok(mut file) => {
            if let Err(error) = file.write_all(bytes) {
                fail(rt, name, error);
            }
        }
        Err(error) => fail(rt, name, error),
    }
}

// Prints the line of a verdict; where it is accepted its result, which may be empty, goes to the file of
// this name, if one was named.
fn hand_out(rt: &HostRuntime, said: Said, line: &[u8], out: &[u8], res: &[u8], named: bool) {
    if !print(rt, line, said.len) {
        return;
    }
    if let Some(n) = said.result {
        if n <= out.len() && named {
            save(rt, res, &out[..n]);
        }
    }
}

// Which check is made: an assignment's plan is unpacked where a file is named for it, and only there.
fn asked(check: Check, named: bool) -> Check
    ensures { result ≡ asked_check check named }
{
    match check {
        Check::Assignment if named => Check::Unpacking,
        _ => check,
    }
}

// Whether what a check accepts has a result: an assignment that is judged alone and a refutation have none.
fn has_result(check: Check) -> bool
    ensures { result ≡ has_result check }
{
    match check {
        Check::Assignment | Check::Refutation => false,
        Check::Unpacking | Check::Plan | Check::Carriers => true,
    }
}

// Judges the files of these names: the book, the second input, and the result, if one was named and the
// check has one. Where an input can't be read, nothing is printed.
pub fn judge_files(
    rt: &HostRuntime,
    check: Check,
    cap: Option<usize>,
    book: &[u8],
    second: &[u8],
    res: &[u8],
    named: bool,
) {
    let mut bytes = [0u8; 65536];
    let mut more = [0u8; 65536];
    let a = load(rt, book, &mut bytes);
    let b = load(rt, second, &mut more);
    if let (Some(a), Some(b)) = (a, b) {
        let mut out = [0u8; 65536];
        let mut line = [0u8; 64];
        let made = asked(check, named);
        let said = verdict_text(
            made,
            cap,
            &bytes[..a.len],
            &more[..b.len],
            a.long || b.long,
            &mut out,
            &mut line,
        );
        hand_out(rt, said, &line, &out, res, named && has_result(made));
    }
}

// Prints the combined verdict on n, by the files of these names. Where one can't be read, nothing is printed.
pub fn fewest_files(rt: &HostRuntime, book: &[u8], n: usize, assignment: &[u8], refutation: &[u8]) {
    let mut bytes = [0u8; 65536];
    let mut yes = [0u8; 65536];
    let mut no = [0u8; 65536];
    let a = load(rt, book, &mut bytes);
    let b = load(rt, assignment, &mut yes);
    let c = load(rt, refutation, &mut no);
    if let (Some(a), Some(b), Some(c)) = (a, b, c) {
        let mut line = [0u8; 64];
        let long = a.long || b.long || c.long;
        let said = fewest_text(
            &bytes[..a.len],
            n,
            &yes[..b.len],
            &no[..c.len],
            long,
            &mut line,
        );
        print(rt, &line, said.len);
    }
}

// Prints the train graph of the plan in the second file, for the book in the first. Where one can't be
// read, nothing is printed.
pub fn graph_files(rt: &HostRuntime, book: &[u8], plan: &[u8]) {
    let mut bytes = [0u8; 65536];
    let mut more = [0u8; 65536];
    let a = load(rt, book, &mut bytes);
    let b = load(rt, plan, &mut more);
    if let (Some(a), Some(b)) = (a, b) {
        let mut out = [0u8; 65536];
        let len = graph_text(&bytes[..a.len], &more[..b.len], a.long || b.long, &mut out);
        print(rt, &out, len);
    }
}

// Rewrites the old book in the file of this name into the file of the other. Where it can't be read,
// nothing is printed.
pub fn upgrade_file(rt: &HostRuntime, old: &[u8], new: &[u8]) {
    let mut bytes = [0u8; 65536];
    if let Some(a) = load(rt, old, &mut bytes) {
        let mut out = [0u8; 65536];
        let mut line = [0u8; 64];
        let said = upgrade_text(&bytes[..a.len], a.long, &mut out, &mut line);
        hand_out(rt, said, &line, &out, new, true);
    }
}
