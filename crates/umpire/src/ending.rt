//! How a call ends.

ghost use Rattle.std.specs.Prelude.{◌≡◌};
ghost use Rattle.umpire.specs.Endings.{answer_status, verdict_status, refusal_status, status_of, outcome_of};

use crate::outcome::{Outcome, Refusal, Status};
use um_model::{Answer, AnswerKind, Verdict};

/// How a call ends. Status and fields of its outcome follow.
#[derive(Debug, Drop)]
pub enum Ending {
    /// The report of this answer was written.
    Answered(Answer),
    /// The line of this verdict was written.
    Judged(Verdict),
    /// The normal text of a deck was written.
    Printed,
    /// The line of this refusal was written.
    Refused(Refusal),
    /// A file or the output failed.
    Faulted,
    /// No memory was found, and nothing was written.
    WithoutMemory,
}

impl Ending {
    fn status(&self) -> Status
        ensures { result ≡ status_of self.now }
    {
        match self {
            Ending::Answered(answer) => answer_status(answer.kind),
            Ending::Judged(verdict) => verdict_status(verdict),
            Ending::Printed => Status::Optimal,
            Ending::Refused(refusal) => refusal_status(refusal),
            Ending::Faulted => Status::Fault,
            Ending::WithoutMemory => Status::Memory,
        }
    }

    /// What the call says of itself.
    pub fn outcome(self) -> Outcome
        ensures { result ≡ outcome_of self }
    {
        let status = self.status();
        let mut outcome = Outcome {
            status,
            answer: None,
            verdict: None,
            refusal: None,
        };
        match self {
            Ending::Answered(answer) => outcome.answer = Some(answer),
            Ending::Judged(verdict) => outcome.verdict = Some(verdict),
            Ending::Refused(refusal) => outcome.refusal = Some(refusal),
            Ending::Printed | Ending::Faulted | Ending::WithoutMemory => {}
        }
        outcome
    }
}

fn answer_status(kind: AnswerKind) -> Status
    ensures { result ≡ answer_status kind }
{
    match kind {
        AnswerKind::Optimal => Status::Optimal,
        AnswerKind::Infeasible => Status::Infeasible,
        AnswerKind::Unbounded => Status::Unbounded,
        AnswerKind::Limit => Status::Limit,
        AnswerKind::Overflow => Status::Overflow,
    }
}

fn verdict_status(verdict: &Verdict) -> Status
    ensures { result ≡ verdict_status verdict.now }
{
    match verdict {
        Verdict::Yes => Status::Optimal,
        Verdict::No { .. } => Status::No,
    }
}

fn refusal_status(refusal: &Refusal) -> Status
    ensures { result ≡ refusal_status refusal.now }
{
    match refusal {
        Refusal::Words(_) | Refusal::LowTolerance { .. } => Status::Words,
        Refusal::Deck(_) | Refusal::Tree(_) => Status::Refused,
    }
}
