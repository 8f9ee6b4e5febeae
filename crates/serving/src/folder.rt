//! Folders, in which files are opened by their paths.

ghost use Rattle.std.specs.Prelude.{◌≡◌, ℕ, List, IfOk, OnOk, OnErr, true, false};
ghost use Rattle.serving.specs.Folders.{File, Unknown, CanFail, OpensWith};

use board_text::{Failed, Source, Through};
use explanations::Trouble;
use std::fs;
use std::fs::Files;
use std::io::{Error, ErrorKind};

/// A place where paths are opened for reading.
pub trait Folder {
    type Reader: Source + Drop;

    /// The file that is found at a path.
    ghost at: { Self → List ℕ → File };

    /// A reader of the file at the path. If the bytes of a file are known, no reader ever fails.
    fn open(&self, path: &str) -> Result<Self::Reader, Failed>
        ensures opened { IfOk result (λ reader.
            OpensWith (at self.now path.now) (Self.Reader.remaining reader)) }
        ensures ready { IfOk result (λ reader. Self.Reader.has_failed reader ≡ false) }
        ensures unended { IfOk result (λ reader. Self.Reader.has_ended reader ≡ false) }
        ensures sound { OnOk result ((reader : Self.Reader) → Self.Reader.has_failed reader ≡ true
            → CanFail (at self.now path.now)) }
        ensures shut { OnErr result (CanFail (at self.now path.now)) };

    /// Why a path that couldn't be opened or read can't be, as far as the folder knows. A person is
    /// told; nothing else depends on it.
    fn trouble(&self, path: &str) -> Trouble;
}

/// The files of the system, of which no contract knows the bytes.
#[derive(Clone, Copy)]
pub struct System<'a, R> {
    rt: &'a R,
}

impl<'a, R> System<'a, R> {
    pub fn new(rt: &'a R) -> System<'a, R> {
        System { rt }
    }
}

impl<R: Files> Folder for System<'_, R> {
    type Reader = Through<R::File>;

    ghost at = { λ _ _. Unknown };

    fn open(&self, path: &str) -> Result<Through<R::File>, Failed> {
        match fs::open(self.rt, path) {
            Ok(file) => Ok(Through::new(file)),
            Err(_) => Err(Failed),
        }
    }

    fn trouble(&self, path: &str) -> Trouble {
        match fs::metadata(self.rt, path) {
            Ok(found) if found.is_dir() => Trouble::Folder,
            Ok(_) => match fs::open(self.rt, path) {
                Ok(_) => Trouble::Other,
                Err(error) => reason(error),
            },
            Err(error) => reason(error),
        }
    }
}

/// Why the system opened no file.
fn reason(error: Error) -> Trouble {
    match error.kind() {
        ErrorKind::NotFound => Trouble::Missing,
        ErrorKind::PermissionDenied => Trouble::Forbidden,
        ErrorKind::IsADirectory => Trouble::Folder,
        ErrorKind::NotADirectory => Trouble::NoFolder,
        ErrorKind::FilesystemLoop => Trouble::Loop,
        ErrorKind::InvalidFilename => Trouble::LongName,
        _ => match error.raw_os_error() {
            Some(code) => Trouble::Coded(code.unsigned_abs()),
            None => Trouble::Other,
        },
    }
}
