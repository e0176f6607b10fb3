// What the library's functions answer, laid out as C has it. `number` is 0, or the number of the
// refusal, and `detail` is its detail; beside a refusal every other field is 0. The shape of these structs is the
// C interface's, so a refusal is two numbers in them, and kinds and what is missing are numbers. Assumes nothing.
use model::Refusal;
use writing::Totals as Written;

// A verdict.
#[repr(C)]
#[derive(Clone, Copy)]
pub struct Verdict {
    pub number: usize,
    pub detail: usize,
}

impl From<Result<(), Refusal>> for Verdict {
    ghost use Rattle.std.specs.Prelude.{◌≡◌};
    ghost use Rattle.gentupag.specs.Shown.{verdict_shown};

    ghost from_gives = { λ answer v. v ≡ verdict_shown answer };

    fn from(answer: Result<(), Refusal>) -> Verdict {
        match answer {
            Ok(()) => Verdict {
                number: 0,
                detail: 0,
            },
            Err(refusal) => Verdict {
                number: refusal.number(),
                detail: refusal.detail(),
            },
        }
    }
}

// A verdict, and how many bytes of the output were written.
#[repr(C)]
#[derive(Clone, Copy)]
pub struct Output {
    pub number: usize,
    pub detail: usize,
    pub length: usize,
}

impl From<Result<usize, Refusal>> for Output {
    ghost use Rattle.std.specs.Prelude.{◌≡◌};
    ghost use Rattle.gentupag.specs.Shown.{output_shown};

    ghost from_gives = { λ answer o. o ≡ output_shown answer };

    fn from(answer: Result<usize, Refusal>) -> Output {
        match answer {
            Ok(length) => Output {
                number: 0,
                detail: 0,
                length,
            },
            Err(refusal) => Output {
                number: refusal.number(),
                detail: refusal.detail(),
                length: 0,
            },
        }
    }
}

// A formula's totals; `words` of the output were written.
#[repr(C)]
#[derive(Clone, Copy)]
pub struct Totals {
    pub number: usize,
    pub detail: usize,
    pub variables: usize,
    pub clauses: usize,
    pub words: usize,
}

impl From<Result<Written, Refusal>> for Totals {
    ghost use Rattle.std.specs.Prelude.{◌≡◌};
    ghost use Rattle.gentupag.specs.Shown.{totals_shown};

    ghost from_gives = { λ answer t. t ≡ totals_shown answer };

    fn from(answer: Result<Written, Refusal>) -> Totals {
        match answer {
            Ok(written) => Totals {
                number: 0,
                detail: 0,
                variables: written.variables,
                clauses: written.clauses,
                words: written.words,
            },
            Err(refusal) => Totals {
                number: refusal.number(),
                detail: refusal.detail(),
                variables: 0,
                clauses: 0,
                words: 0,
            },
        }
    }
}

// A book's sizes.
#[repr(C)]
#[derive(Clone, Copy)]
pub struct Sizes {
    pub number: usize,
    pub detail: usize,
    pub intervals: usize,
    pub nodes: usize,
    pub free_nodes: usize,
    pub segments: usize,
    pub trains: usize,
    pub variables: usize,
    pub clauses: usize,
    pub words: usize,
    pub plan_bytes: usize,
}

// What `missing` says of a run that was asked for.
pub const NOTHING_MISSING: usize = 0;

pub const NO_TRAIN: usize = 1;

pub const NO_RUN: usize = 2;

// A run: how many runs its train has, how many segments the train stands on (l), and the run's
// directed segments, the first `length` bytes of `path`, with zeros behind.
#[repr(C)]
#[derive(Clone, Copy)]
pub struct Run {
    pub number: usize,
    pub detail: usize,
    pub missing: usize,
    pub runs: usize,
    pub place: usize,
    pub length: usize,
    pub path: [u8; 16],
}

// What `kind` says of a variable that was asked for.
pub const NO_VARIABLE: usize = 0;

pub const IS_BORDER: usize = 1;

pub const IS_RUN: usize = 2;

pub const IS_GONE: usize = 3;

pub const IS_CLAIM: usize = 4;

pub const IS_COUNT: usize = 5;

// What a variable stands for. `item` is the node of a border, the number of a run or the segment of a
// claim, and of a count, which a cap adds, a node of kind 1: of the nodes of kind 1 up to it at least `count`
// are set. A border and a count have no train and no interval, and only a count has a `count`.
#[repr(C)]
#[derive(Clone, Copy)]
pub struct Variable {
    pub number: usize,
    pub detail: usize,
    pub kind: usize,
    pub train: usize,
    pub interval: usize,
    pub item: usize,
    pub count: usize,
}
