//! How jobs end, with what is explained of them.

ghost use Rattle.std.specs.Prelude.{◌≡◌};
ghost use Rattle.runs.specs.declared.fault.RunFault.TheVariants.{Read};
ghost use Rattle.serving.specs.declared.outcome.Outcome.TheVariants.{Broken};

use crate::files::Files;
use crate::folder::Folder;
use crate::outcome::Outcome;
use crate::watched::Watched;
use command_line::BoardLimit;
use explanations::{Inputs, Note, Origin};
use runs::RunFault;

/// How a job ended, and the explanation of its fault or of a refusal, which is empty if it was
/// done.
#[derive(Drop)]
pub(crate) struct Ended<'a> {
    pub(crate) outcome: Outcome,
    pub(crate) note: Note<'a>,
}

impl<'a> Ended<'a> {
    /// The end of a job whose file at `path` couldn't be opened.
    pub(crate) fn unopened<F: Folder>(files: &Files<'_, F>, path: &'a str) -> Ended<'a>
        ensures { result.outcome ≡ Broken Read }
    {
        Ended {
            outcome: Outcome::Broken(RunFault::Read),
            note: Note::unread(path, files.folder.trouble(path)),
        }
    }

    /// The end of a job over these inputs, which is no check.
    pub(crate) fn of(outcome: Outcome, inputs: &Inputs<'a, '_>) -> Ended<'a>
        ensures { result.outcome ≡ outcome }
    {
        Ended {
            outcome,
            note: outcome.note(inputs),
        }
    }

    /// The end of a job over the board at `path` alone, within the `limit`, as far as `reader` gave
    /// it.
    pub(crate) fn of_board<F: Folder>(
        outcome: Outcome,
        limit: BoardLimit,
        files: &Files<'_, F>,
        path: &'a str,
        reader: &Watched<F::Reader>,
    ) -> Ended<'a>
        ensures { result.outcome ≡ outcome }
    {
        let trouble = files.trouble_of(path, reader);
        let text = Origin::board(path, reader.text(), reader.count(), trouble);
        Ended::of(outcome, &Inputs::alone(limit, text, text))
    }

    /// The end of a job over the board at a path, within the `limit`, and the `symmetries` at
    /// another, as far as the readers gave them.
    pub(crate) fn up_to<F: Folder>(
        outcome: Outcome,
        limit: BoardLimit,
        files: &Files<'_, F>,
        board: (&'a str, &Watched<F::Reader>),
        symmetries: (&'a str, &Watched<F::Reader>),
    ) -> Ended<'a>
        ensures { result.outcome ≡ outcome }
    {
        let (path, reader) = board;
        let trouble = files.trouble_of(path, reader);
        let first = Origin::board(path, reader.text(), reader.count(), trouble);
        let (path, reader) = symmetries;
        let trouble = files.trouble_of(path, reader);
        let second = Origin::symmetries(path, reader.text(), reader.count(), trouble);
        Ended::of(outcome, &Inputs::with_symmetries(limit, first, second))
    }
}
