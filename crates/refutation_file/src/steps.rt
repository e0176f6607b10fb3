// A step of a refutation in its file: the frame at a place (17), and the stretches of the file that its
// literals and its hints are in. Assumes nothing.
ghost use Rattle.std.specs.Prelude.{◌≡◌, ◌+◌, ◌≤◌, ◌<◌, length, drop, Some};
ghost use Rattle.spec.specs.Lists.{one, ◌when◌, first_fault};
ghost use Rattle.spec.specs.Frames.{payload_of};
ghost use Rattle.spec.specs.Refutation.{hint_bytes, is_bad};
ghost use Rattle.refutation_file.specs.Found.{step_found, step_refusal, literal_bytes, step_bytes};

use frames::{FrameKind, NUMBER, OPENING, StepFrame, frame_at, pair};

// A step in its frame: how many literals and how many hints it has.
#[derive(Clone, Copy, Debug, PartialEq, Eq)]
pub struct Step {
    pub literals: usize,
    pub hints: usize,
}

// The step at a place; where there is none, 17 refuses it.
pub fn step_at(s: &[u8], at: usize) -> Option<Step>
    requires { at ≤ length s.now }
    ensures found { result ≡ step_found (drop at s.now) }
    ensures refusal { step_refusal result ≡ first_fault (one (17 when is_bad (drop at s.now))) }
{
    let frame = frame_at(s, at)?;
    if frame.kind != StepFrame::KIND || frame.len < StepFrame::LEN {
        return None;
    }
    let literals = pair(s, at + OPENING);
    if frame.len - StepFrame::LEN < NUMBER * literals {
        return None;
    }
    let rest = frame.len - StepFrame::LEN - NUMBER * literals;
    if rest % NUMBER != 0 {
        return None;
    }
    Some(Step {
        literals,
        hints: rest / NUMBER,
    })
}

// The bytes of a step's literals: a part of the file.
pub fn literals_at(s: &[u8], at: usize, step: Step) -> &[u8]
    requires { (at ≤ length s.now) × (step_found (drop at s.now) ≡ Some step) }
    ensures { result.now ≡ literal_bytes (payload_of (drop at s.now)) }
{
    let first = StepFrame::cursor(at + OPENING).end;
    &s[first..first + NUMBER * step.literals]
}

// The bytes of a step's hints: a part of the file, to the payload's end.
pub fn hints_at(s: &[u8], at: usize, step: Step) -> &[u8]
    requires { (at ≤ length s.now) × (step_found (drop at s.now) ≡ Some step) }
    ensures { result.now ≡ hint_bytes (payload_of (drop at s.now)) }
{
    let first = StepFrame::cursor(at + OPENING).end + NUMBER * step.literals;
    &s[first..first + NUMBER * step.hints]
}

// Where the frame of a step ends.
pub fn step_end(at: usize, step: Step) -> usize
    requires { at + step_bytes step < 0x1_0000_0000_0000_0000 }
    ensures { result ≡ at + step_bytes step }
{
    StepFrame::cursor(at + OPENING).end + NUMBER * (step.literals + step.hints)
}
