//! Outcomes of jobs, and the exit status of each.

ghost use Rattle.std.specs.Prelude.{◌≡◌};
ghost use Rattle.serving.specs.Outcomes.{outcome_of_check, outcome_of_run, status_of};
ghost use Rattle.serving.specs.Outcomes.{status_of_fault};

use explanations::{Inputs, Note};
use runs::{RunFault, Verdict};

/// How a job ended.
#[derive(Clone, Copy)]
pub(crate) enum Outcome {
    /// It was done. A document that was checked was accepted.
    Done,
    /// The document that was checked was refused.
    Refused,
    /// It was broken off.
    Broken(RunFault),
}

impl Outcome {
    /// The outcome of a check.
    pub(crate) fn of_check(checked: Result<Verdict, RunFault>) -> Outcome
        ensures { result ≡ outcome_of_check checked }
    {
        match checked {
            Ok(Verdict::Accepted { .. }) => Outcome::Done,
            Ok(
                Verdict::Refused(_)
                | Verdict::RefusedByClasses(_)
                | Verdict::RefusedUpToSymmetries(_),
            ) => Outcome::Refused,
            Err(fault) => Outcome::Broken(fault),
        }
    }

    /// The outcome of any other run.
    pub(crate) fn of_run<A: Copy>(ran: Result<A, RunFault>) -> Outcome
        ensures { result ≡ outcome_of_run ran }
    {
        match ran {
            Ok(_) => Outcome::Done,
            Err(fault) => Outcome::Broken(fault),
        }
    }

    /// The explanation of this end of a job over `inputs`, which is no check. It is empty if the
    /// job was done.
    pub(crate) fn note<'a>(self, inputs: &Inputs<'a, '_>) -> Note<'a> {
        match self {
            Outcome::Broken(fault) => Note::of(fault, inputs),
            Outcome::Done | Outcome::Refused => Note::empty(),
        }
    }

    /// The exit status.
    pub(crate) fn status(self) -> u8
        ensures { result ≡ status_of self }
    {
        match self {
            Outcome::Done => 0,
            Outcome::Refused => 3,
            Outcome::Broken(fault) => fault_status(fault),
        }
    }
}

/// The exit status of a fault.
fn fault_status(fault: RunFault) -> u8
    ensures { result ≡ status_of_fault fault }
{
    match fault {
        RunFault::Board(_) | RunFault::Proof(_) | RunFault::Symmetries(_) => 1,
        RunFault::TooLarge | RunFault::DocumentTooLarge => 1,
        RunFault::LastsForever | RunFault::TooManyChains | RunFault::TooManyOrbits => 1,
        RunFault::Memory | RunFault::Worker => 4,
        RunFault::Read | RunFault::Write | RunFault::Limit => 5,
    }
}
