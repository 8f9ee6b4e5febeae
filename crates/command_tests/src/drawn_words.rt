//! Drawn command lines, beside a plain reading of them: by the commands and limits of
//! docs/formats.md, and up to the first word that is wrong or asks for help, as `clap` reads.

use crate::command_lines::job_of;
use command_line::{Job, JobFault};
use fakes::Draws;
use std::alloc::Global;

/// A line that asks for no job.
#[derive(Clone, Copy, Debug, PartialEq, Eq)]
enum Other {
    Help,
    Version,
    Wrong,
}

/// The words that are drawn, one of them empty; the first fourteen follow the program's name.
const WORDS: &str =
    "solve check report starts chains nested play climb help -h --version  -- chek a - 0 1 6 7 16 \
    17 24 25 02 +3 99999999999999999999 -1 --help -V --workers --workers=0 --workers=16 --workers=17 \
    --workers= --side --side=labeller --side=person labeller adversary --large --large=true \
    --explain --symmetries --symmetries= --symmetries=-1";

fn word(place: u32) -> &'static str {
    WORDS.split(' ').nth(place as usize).unwrap_or("")
}

/// The words that a command still takes: an option with a value, or `none`, where `--side` is
/// wanted; `--side` and `--symmetries`, where they may be left out; `--large`, if it is taken;
/// `--explain`, if it wasn't given; and a number of words, each at most `most`, or 0 for paths.
#[derive(Clone, Copy)]
struct Form {
    option: &'static str,
    takes_side: bool,
    takes_symmetries: bool,
    takes_large: bool,
    takes_explain: bool,
    wants: usize,
    most: u8,
}

impl Form {
    fn new(option: &'static str, takes_large: bool, wants: usize, most: u8) -> Form {
        Form {
            option,
            takes_side: false,
            takes_symmetries: takes_large,
            takes_large,
            takes_explain: true,
            wants,
            most,
        }
    }

    fn of(command: &str) -> Option<Form> {
        match command {
            "check" => Some(Form::new("none", false, 2, 0)),
            "solve" => Some(Form {
                takes_side: true,
                ..Form::new("--workers", true, 1, 0)
            }),
            "report" | "starts" => Some(Form::new("--workers", true, 1, 0)),
            "chains" => Some(Form::new("--workers", false, 1, 0)),
            "nested" => Some(Form::new("none", false, 2, 6)),
            "play" => Some(Form::new("--side", true, 1, 0)),
            "climb" => Some(Form::new("none", false, 1, 24)),
            _ => None,
        }
    }

    fn without_large(self) -> Form {
        Form {
            takes_large: false,
            ..self
        }
    }

    fn without_explain(self) -> Form {
        Form {
            takes_explain: false,
            ..self
        }
    }

    /// The same after this option with this value, if they are taken.
    fn after_value(self, option: &str, value: &str) -> Result<Form, Other> {
        if !is_value(option, value) {
            return Err(Other::Wrong);
        }
        match option {
            _ if option == self.option => Ok(Form {
                option: "none",
                ..self
            }),
            "--side" if self.takes_side => Ok(Form {
                takes_side: false,
                ..self
            }),
            "--symmetries" if self.takes_symmetries => Ok(Form {
                takes_symmetries: false,
                ..self
            }),
            _ => Err(Other::Wrong),
        }
    }

    /// The same after one of the words that are wanted, if one more is.
    fn after_word(self) -> Option<Form> {
        let wants = self.wants.checked_sub(1)?;
        Some(Form { wants, ..self })
    }
}

/// Whether the word is a number from 1 to `most`, or `most` is 0.
fn fits(word: &str, most: u8) -> bool {
    let number = word.parse::<u8>();
    most == 0 || number.is_ok_and(|number| 1 <= number && number <= most)
}

fn is_value(option: &str, value: &str) -> bool {
    option == "--workers" && fits(value, 16)
        || option == "--side" && (value == "labeller" || value == "adversary")
        || option == "--symmetries"
}

/// Whether the word doesn't begin as an option does.
fn is_plain(word: &str) -> bool {
    word == "-" || !word.starts_with('-')
}

/// Ok if the words of a command of this form are right.
fn read(words: &[&str], form: Form) -> Result<(), Other> {
    let Form {
        option,
        takes_large,
        takes_explain,
        wants,
        most,
        ..
    } = form;
    match words {
        [] if wants == 0 && option != "--side" => Ok(()),
        ["--", rest @ ..] if rest.len() != wants || option == "--side" => Err(Other::Wrong),
        ["--", rest @ ..] if rest.iter().all(|word| fits(word, most)) => Ok(()),
        ["--help" | "-h", ..] => Err(Other::Help),
        [word, rest @ ..] if is_plain(word) => match form.after_word() {
            Some(form) if fits(word, most) => read(rest, form),
            _ => Err(Other::Wrong),
        },
        ["--large", rest @ ..] if takes_large => read(rest, form.without_large()),
        ["--explain", rest @ ..] if takes_explain => read(rest, form.without_explain()),
        [word, rest @ ..] if word.contains('=') => {
            let (option, value) = word.split_once('=').ok_or(Other::Wrong)?;
            read(rest, form.after_value(option, value)?)
        }
        [option, value, rest @ ..] if is_plain(value) => {
            read(rest, form.after_value(option, value)?)
        }
        _ => Err(Other::Wrong),
    }
}

/// The command that the words after the program's name ask for.
fn asked<'a>(words: &[&'a str]) -> Result<&'a str, Other> {
    match words {
        [] => Ok("joined"),
        ["--help" | "-h", ..] | ["help"] | ["help", "help"] => Err(Other::Help),
        ["--version" | "-V", ..] => Err(Other::Version),
        ["help", topic] if Form::of(topic).is_some() => Err(Other::Help),
        [name, rest @ ..] => {
            read(rest, Form::of(name).ok_or(Other::Wrong)?)?;
            Ok(*name)
        }
    }
}

fn name_of(job: Job<'_>) -> &'static str {
    match job {
        Job::Joined => "joined",
        Job::Check { .. } => "check",
        Job::Nested { .. } => "nested",
        Job::Solve { .. } => "solve",
        Job::Report { .. } => "report",
        Job::Starts { .. } => "starts",
        Job::Chains { .. } => "chains",
        Job::Play { .. } => "play",
        Job::Climb { .. } => "climb",
    }
}

/// A text of help has a usage, and that of a version has none.
fn other_of(fault: &JobFault) -> Option<Other> {
    match fault {
        JobFault::Help { text } if text.contains("Usage: ") => Some(Other::Help),
        JobFault::Help { .. } => Some(Other::Version),
        JobFault::Usage { .. } => Some(Other::Wrong),
        JobFault::Memory => None,
    }
}

/// The answer of `job`, unless it is out of memory.
fn answered(alloc: Global, words: &[&str]) -> Option<Result<&'static str, Other>> {
    match job_of(alloc, words) {
        Ok(job) => Some(Ok(name_of(job))),
        Err(fault) => Some(Err(other_of(&fault)?)),
    }
}

#[test]
fn thousands_of_lines(rt: HostRuntime) {
    let mut draws = Draws::after(1);
    for _ in 0..8_000 {
        let mut line = ["pebbles", word(draws.below(14)), "", "", ""];
        for place in 2..5 {
            line[place] = word(draws.below(46));
        }
        let line = &line[..=draws.below(5) as usize];
        let wanted = Some(asked(&line[1..]));
        assert_eq!(rt; answered(rt.alloc(), line), wanted, "at {line:?}");
    }
}
