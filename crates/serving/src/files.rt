//! The files of a job, which are watched so that their faults can be explained.

ghost use Rattle.std.specs.Prelude.{◌≡◌, IfOk, OnErr, OnOk, false, true};
ghost use Rattle.clap.specs.Walk.{texts};
ghost use Rattle.serving.specs.Folders.{CanFail, OpensWith};
ghost use Rattle.serving.specs.Serving.{is_explained};

use crate::folder::Folder;
use crate::watched::Watched;
use board_text::{Failed, Source};
use command_line::asks_to_explain;
use console::Terminals;
use explanations::Trouble;
use std::alloc::Global;

/// The path at which a folder has standard input.
pub(crate) const INPUT_PATH: &str = "/dev/stdin";

/// The folder in which the files of a job are opened, and whether their faults are explained.
#[derive(Clone, Copy)]
pub(crate) struct Files<'f, F: Folder> {
    pub(crate) folder: &'f F,
    /// Whether each fault is explained. Then the first bytes of each file are kept.
    pub(crate) explains: bool,
}

impl<'f, F: Folder> Files<'f, F> {
    /// The files of `folder`, for a job that these words ask for.
    pub(crate) fn of(folder: &'f F, terminals: Terminals, words: &[&str]) -> Files<'f, F>
        ensures folder { result.folder.now ≡ folder.now }
        ensures explains { result.explains ≡ is_explained terminals (texts words.now) }
    {
        Files {
            folder,
            explains: terminals.errors || asks_to_explain(words),
        }
    }

    /// A reader of the file at the path, which is watched.
    pub(crate) fn open(&self, alloc: Global, path: &str) -> Result<Watched<F::Reader>, Failed>
        ensures opened { IfOk result (λ reader. OpensWith (F.at self.now.folder.now path.now)
            (F.Reader.remaining reader.source)) }
        ensures ready { IfOk result (λ reader. F.Reader.has_failed reader.source ≡ false) }
        ensures unended { IfOk result (λ reader. F.Reader.has_ended reader.source ≡ false) }
        ensures sound { OnOk result ((reader : F.Reader) → F.Reader.has_failed reader ≡ true
            → CanFail (F.at self.now.folder.now path.now)) }
        ensures shut { OnErr result (CanFail (F.at self.now.folder.now path.now)) }
    {
        let file = self.folder.open(path)?;
        Ok(Watched::new(alloc, file, self.explains))
    }

    /// Why `source`, which the folder has at `path`, couldn't be read to its end, if it couldn't.
    pub(crate) fn trouble_of<S: Source>(&self, path: &str, source: &S) -> Option<Trouble> {
        if source.failed() {
            Some(self.folder.trouble(path))
        } else {
            None
        }
    }
}
