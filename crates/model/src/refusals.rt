// Document 01's refusals by name. Each has a number there, and some a detail: the least false clause, the
// least broken rule, or the step. Assumes nothing.
use std::fmt;

/// Why an input is refused, nearest to the order of document 01's table.
#[derive(Clone, Copy, Debug, PartialEq, Eq)]
pub enum Refusal {
    /// 1: under 4 bytes left, or a payload past the end, before End.
    CutFrame,
    /// 2: a kind that is none of a book's.
    UnknownKind,
    /// 3: the first frame no Head, a second Head, a kind gone down, or bytes after End.
    FrameOrder,
    /// 4: a payload's length is wrong for its kind.
    PayloadLength,
    /// 5: one more than the limit.
    OverLimit,
    /// 6: a field outside its list, a number of nothing yet read, a join repeated.
    WrongField,
    /// 7: l or k is not 1 to 8.
    WrongReach,
    /// 8: the row of a train's place is not l long, or no path.
    NoPath,
    /// 9: an unbreakable TTD has two segments at a node that may have a border.
    DivisibleTtd,
    /// 10: no train, or one without a call.
    NoCall,
    /// 11: a train has over 256 runs.
    OverRuns,
    /// 12: a lent slice is shorter than its contents.
    NoRoom,
    /// 13: an assignment's length or a byte of it is wrong.
    NoAssignment,
    /// 14: a clause is false; the least of them.
    FalseClause(usize),
    /// 15: a plan's length or a value of it is wrong.
    NoPlan,
    /// 16: a rule is broken; the least of them.
    BrokenRule(usize),
    /// 17: no whole step stands in this step's place.
    CutStep(usize),
    /// 18: a literal of this step is 0, unknown or not rising.
    WrongLiteral(usize),
    /// 19: a hint of this step is 0 or not below the step.
    WrongHint(usize),
    /// 20: this step breaks the step rule.
    UnprovedStep(usize),
    /// 21: no empty step at the file's end, or a byte after one that passed.
    WrongEnding,
    /// 22: a plan sets more nodes of kind 1 than the cap, or another count than n.
    WrongCount,
}

impl Refusal {
    ghost use Rattle.std.specs.Prelude.{◌≡◌};
    ghost use Rattle.model.specs.Refusals.{number_of, detail_of};

    /// Document 01's number.
    pub fn number(self) -> usize
        ensures { result ≡ number_of self }
    {
        match self {
            Refusal::CutFrame => 1,
            Refusal::UnknownKind => 2,
            Refusal::FrameOrder => 3,
            Refusal::PayloadLength => 4,
            Refusal::OverLimit => 5,
            Refusal::WrongField => 6,
            Refusal::WrongReach => 7,
            Refusal::NoPath => 8,
            Refusal::DivisibleTtd => 9,
            Refusal::NoCall => 10,
            Refusal::OverRuns => 11,
            Refusal::NoRoom => 12,
            Refusal::NoAssignment => 13,
            Refusal::FalseClause(_) => 14,
            Refusal::NoPlan => 15,
            Refusal::BrokenRule(_) => 16,
            Refusal::CutStep(_) => 17,
            Refusal::WrongLiteral(_) => 18,
            Refusal::WrongHint(_) => 19,
            Refusal::UnprovedStep(_) => 20,
            Refusal::WrongEnding => 21,
            Refusal::WrongCount => 22,
        }
    }

    /// Its detail, or 0.
    pub fn detail(self) -> usize
        ensures { result ≡ detail_of self }
    {
        match self {
            Refusal::FalseClause(clause) => clause,
            Refusal::BrokenRule(rule) => rule,
            Refusal::CutStep(step) => step,
            Refusal::WrongLiteral(step) => step,
            Refusal::WrongHint(step) => step,
            Refusal::UnprovedStep(step) => step,
            _ => 0,
        }
    }
}

impl fmt::Display for Refusal {
    fn fmt<W: fmt::Write>(&self, f: &mut fmt::Formatter<W>) -> fmt::Result {
        let number = self.number();
        let detail = self.detail();
        write!(f, "{number} {detail}")
    }
}
