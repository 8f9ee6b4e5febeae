//! Solves boards of the pebble game, checks strategies for them, counts values, plays with a
//! person, and writes nested boards and plays on them.
//!
//! Without a command a board and a strategy document after it are read from standard input, and one
//! line is written to standard output. `pebbles --help` lists the commands.
//!
//! Exit statuses: 0 done, 1 a fault of a text or a board that is too large, 2 wrong words,
//! 3 refused, 4 no memory or a worker that wasn't started,
//! 5 a failed read or write, or an input that is too long.
#![tactic(auto)]

ghost use Rattle.std.specs.Prelude.{◌≡◌, [], false};
ghost use Rattle.std.specs.Process.{exit_status};
ghost use Rattle.serving.specs.Consoles.{IsReady, serving_of};
ghost use Rattle.serving.specs.Folders.{Unknown};
ghost use Rattle.runs.specs.Run.{stream_of};
ghost use Rattle.serving.specs.Serving.{ServesAnyWords};
ghost use Rattle.serving.specs.declared.serving.Words.{Words as AllWords};
ghost use Rattle.pebbles.specs.Program.{Gives};

use board_text::{Sink, Source, Through};
use console::{Console, Terminals};
use serving::{System, Words, serve};
use std::alloc::Global;
use std::fs::{File, Files};
use std::io::IsTerminal;
use std::os::fd::{AsRawFd, IntoRawFd};
use std::process::ExitCode;
use std::sync::Wait;
use std::thread::Threads;
use std::{env, io};

fn main(rt: HostRuntime) -> ExitCode {
    let alloc = rt.alloc();
    let mut console = Console {
        input: Through::new(rt.stdin()),
        output: Through::new(rt.stdout()),
        errors: Through::new(rt.stderr()),
        terminals: Terminals {
            input_closed: stand_in(&rt),
            input: rt.stdin().is_terminal(),
            errors: rt.stderr().is_terminal(),
        },
    };
    let words = OwnedWords::of_process(&rt, alloc);
    serve_owned(&rt, alloc, &words, &mut console)
}

/// Serves the words on the streams of the console, in the folders of the system. The exit status is
/// the one that `serve` gives.
fn serve_owned<I: Source, O: Sink, E: Sink>(
    rt: &(impl Files + Threads + Wait + Sync),
    alloc: Global,
    owned: &OwnedWords,
    console: &mut Console<I, O, E>,
) -> ExitCode
    requires ready { IsReady I.has_failed I.has_ended O.has_failed console.old }
    requires errors_ready { E.has_failed console.old.errors ≡ false }
    ensures { (words : AllWords) × Gives owned.now words
        × ServesAnyWords (λ _. Unknown) console.old.terminals
        (serving_of (stream_of I.remaining I.has_failed console.old.input console.new.input)
        (stream_of O.contents O.has_failed console.old.output console.new.output)
        (stream_of E.contents E.has_failed console.old.errors console.new.errors)
        (exit_status result)) words }
{
    let mut texts = Vec::new(alloc);
    let words = owned.borrowed(&mut texts);
    let folder = System::new(rt);
    let status = serve(rt, alloc, &words, &folder, console);
    ExitCode::from(status)
}

/// Opens a folder at the number of each standard stream that is closed, so that no file of a job
/// is opened there, and says whether standard input is closed. From such a stream nothing is read,
/// and to it nothing is written.
fn stand_in(rt: &HostRuntime) -> bool {
    let mut input_closed = false;
    for _ in 0..3 {
        match number_taken(rt) {
            Some(0) => input_closed = true,
            Some(_) => {}
            None => return input_closed,
        }
    }
    input_closed
}

/// The number of a standard stream that was closed, at which the root folder stays open from now
/// on; none if no stream is closed, or that folder can't be opened.
fn number_taken(rt: &HostRuntime) -> Option<i32> {
    let Ok(folder) = File::open(rt, "/") else {
        return None;
    };
    if folder.as_raw_fd() > 2 {
        return None;
    }
    Some(folder.into_raw_fd())
}

/// The words of the command line, or why there are none.
#[derive(Drop)]
enum OwnedWords {
    Given(Vec<String>),
    /// A word isn't text.
    NotText,
    /// Memory for them was refused.
    OutOfMemory,
}

impl OwnedWords {
    /// The words of the process.
    fn of_process(rt: &HostRuntime, alloc: Global) -> OwnedWords {
        match env::args(rt) {
            Ok(given) => match given.collect::<Vec<String>>(alloc) {
                Ok(words) => OwnedWords::Given(words),
                Err(_) => OwnedWords::OutOfMemory,
            },
            Err(error) if error.kind() == io::ErrorKind::OutOfMemory => OwnedWords::OutOfMemory,
            Err(_) => OwnedWords::NotText,
        }
    }

    /// The same words, their texts borrowed into `texts`, which is empty before.
    fn borrowed<'a, 'w>(&'w self, texts: &'a mut Vec<&'w str>) -> Words<'a, 'w>
        requires { texts.old.items ≡ [] }
        ensures { Gives self.now result }
    {
        let owned = match self {
            OwnedWords::Given(owned) => owned,
            OwnedWords::NotText => return Words::NotText,
            OwnedWords::OutOfMemory => return Words::OutOfMemory,
        };
        for word in owned {
            if texts.push(word.as_str()).is_err() {
                return Words::OutOfMemory;
            }
        }
        Words::Given(texts.as_slice())
    }
}
