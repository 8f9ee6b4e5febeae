//! The job that the words of the command line ask for.

ghost use Rattle.std.specs.Prelude.{◌≡◌, ◌≤◌, ◌↔◌, ◌⊎◌, [], IfOk, OnOk, IfErr, IfSome, MatchOption};
ghost use Rattle.std.specs.Prelude.{Ok, None, Some, true, false, length, codes, option_map};
ghost use Rattle.clap.specs.Words.{fault_of, first_of, found_of, kind_of, rows_of, subcommand_of};
ghost use Rattle.clap.specs.Words.{subcommand_rows_of, takes};
ghost use Rattle.clap.specs.Walk.{texts};
ghost use Rattle.command_line.specs.Commands as commands;
ghost use Rattle.command_line.specs.Reading.{HasFlag, HasNumber, HasSide, IsInRange, IsReadAs};
ghost use Rattle.command_line.specs.Reading.{ShowsKind, ShowsWords};
ghost use Rattle.command_line.specs.Reading.{AsksForHelpBy, Names, NamesCommands};
ghost use Rattle.command_line.specs.Reading.{asks_for_help, has_topic, is_large, is_topic};
ghost use Rattle.command_line.specs.Inside.Reading.{MisusesBy, Reads, ShowsHelp, has_flag};
ghost use Rattle.command_line.specs.Inside.Reading.{has_number, has_side, is_read, is_read_in};

use crate::asked::{BoardLimit, Job, JobFault, MAX_WORKERS};
use crate::commands::{VERSION, program};
use board_text::MAX_PEBBLES;
use chains::MAX_LENGTH;
use clap::error::ErrorKind;
use clap::{ArgMatches, Error};
use nested_cycles::{MAX_BOARD_LEVELS, MAX_LEVELS};
use positions::Side;
use std::alloc::{AllocError, Global};

/// The names of the commands.
const COMMANDS: &str = "solve, check, report, starts, chains, nested, play, climb\n";

/// The beginning of `clap`'s tip to pass a word as a value, with the empty line before it.
const TIP: &str = "\n\n  tip: to pass '";

/// The job that `words` ask for, the program's name first.
///
/// Without a word after the name it is `Job::Joined`. All other words are read by `clap`, exactly:
/// there is a job only if it finds no fault in them, and words that it takes are refused only if
/// memory runs out. `--help`, `help` and `--version` are answered with the text that they ask for.
pub fn job<'a, 'w>(alloc: Global, words: &'a [&'w str]) -> Result<Job<'a>, JobFault>
    ensures joined { (result ≡ Ok Job.Joined) ↔ (length words.now ≤ 1) }
    ensures job { IfOk result (λ j. (j ≡ Job.Joined)
        ⊎ IsReadAs (subcommand_of commands.program (texts words.now)) j) }
    ensures faultless { IfOk result (λ j. (j ≡ Job.Joined)
        ⊎ (fault_of commands.program (texts words.now) ≡ [])) }
    ensures numbers { IfOk result IsInRange }
    ensures takes { takes commands.program (texts words.now) ≡ true
        → IfErr result (λ f. f ≡ JobFault.Memory) }
    ensures shows { IfErr result (ShowsWords (texts words.now)) }
{
    if words.len() <= 1 {
        return Ok(Job::Joined);
    }
    named_job(alloc, words)
}

/// The job of the command that `words` name.
fn named_job<'a, 'w>(alloc: Global, words: &'a [&'w str]) -> Result<Job<'a>, JobFault>
    ensures job { IfOk result (IsReadAs (subcommand_of commands.program (texts words.now))) }
    ensures faultless { OnOk result (fault_of commands.program (texts words.now) ≡ []) }
    ensures numbers { IfOk result IsInRange }
    ensures takes { takes commands.program (texts words.now) ≡ true
        → IfErr result (λ f. f ≡ JobFault.Memory) }
    ensures shows { IfErr result (ShowsWords (texts words.now)) }
{
    let mut command = program(alloc)?;
    let matches = match command.try_get_matches_from_mut(words) {
        Ok(matches) => matches,
        Err(error) => return Err(fault(alloc, words, &error)),
    };
    match chosen(&matches) {
        Some(job) => Ok(job),
        None => {
            let error = command.error(ErrorKind::InvalidSubcommand, "no such command")?;
            Err(fault(alloc, words, &error))
        }
    }
}

/// The fault for `error`, which `clap` found in `words`: the version, help, or wrong use.
///
/// After the word `help` the words decide whether it is help or wrong use.
fn fault(alloc: Global, words: &[&str], error: &Error) -> JobFault
    ensures memory { kind_of error.now ≡ ErrorKind.OutOfMemory → result ≡ JobFault.Memory }
    ensures shows { ShowsKind (texts words.now) (kind_of error.now) result }
{
    match error.kind() {
        ErrorKind::OutOfMemory => return JobFault::Memory,
        ErrorKind::DisplayVersion => return version(alloc),
        _ => {}
    }
    let Ok(text) = format!(in alloc; "{error}") else {
        return JobFault::Memory;
    };
    if wants_help(words, error) {
        return help(alloc, words, text);
    }
    match without_tip(alloc, text) {
        Ok(text) => JobFault::Usage { text },
        Err(_) => JobFault::Memory,
    }
}

/// The same text without `clap`'s tip to pass a word as a value, which suits no option that is
/// given to the wrong command or misspelt.
fn without_tip(alloc: Global, text: String) -> Result<String, AllocError> {
    let Some((before, rest)) = text.split_once(TIP) else {
        return Ok(text);
    };
    let Some((_, after)) = rest.split_once("\n\n") else {
        return Ok(text);
    };
    format!(in alloc; "{before}\n\n{after}")
}

/// Whether `error` is help that was asked for.
fn wants_help(words: &[&str], error: &Error) -> bool
    ensures yes { result ≡ true → AsksForHelpBy (texts words.now) (kind_of error.now) }
    ensures no { result ≡ false → MisusesBy (texts words.now) (kind_of error.now) }
{
    match topic(words) {
        Some(known) => known,
        None => matches!(error.kind(), ErrorKind::DisplayHelp),
    }
}

/// Help with this `text`. If one word asks for help, and `text` doesn't name each command, as
/// `clap` doesn't promise, the names of the commands take its place.
fn help(alloc: Global, words: &[&str], text: String) -> JobFault
    ensures { ShowsHelp (texts words.now) result }
{
    let is_whole = words.len() != 2 || names_commands(text.as_str());
    if is_whole && !text.is_empty() {
        return JobFault::Help { text };
    }
    match String::from_str(alloc, COMMANDS) {
        Ok(text) => JobFault::Help { text },
        Err(_) => JobFault::Memory,
    }
}

/// Whether `text` names each command.
fn names_commands(text: &str) -> bool
    ensures { result ≡ true → NamesCommands text.now }
{
    names(text, "solve")
        && names(text, "check")
        && names(text, "report")
        && names(text, "starts")
        && names(text, "chains")
        && names(text, "nested")
        && names(text, "play")
        && names(text, "climb")
}

/// Whether `name` stands in `text`.
fn names(text: &str, name: &str) -> bool
    ensures { result ≡ true → Names text.now name.now }
{
    text.contains(name)
}

/// The version.
fn version(alloc: Global) -> JobFault
    ensures { ShowsKind [] ErrorKind.DisplayVersion result }
{
    match String::from_str(alloc, VERSION) {
        Ok(text) => JobFault::Help { text },
        Err(_) => JobFault::Memory,
    }
}

/// Whether a command is named after the word `help`, or no word, if `words` begin with it.
fn topic(words: &[&str]) -> Option<bool>
    ensures { MatchOption result (asks_for_help (texts words.now) ≡ false)
        (λ known. (asks_for_help (texts words.now) ≡ true)
        × (known ≡ has_topic (texts words.now))) }
{
    if words.len() < 2 || words[1] != "help" {
        return None;
    }
    Some(words.len() == 2 || (words.len() == 3 && is_topic(words[2])))
}

/// Whether `word` names a command, or is `help`.
fn is_topic(word: &str) -> bool
    ensures { result ≡ is_topic word.now }
{
    matches!(
        word,
        "help" | "solve" | "check" | "report" | "starts" | "chains" | "nested" | "play" | "climb"
    )
}

/// The job of the command that was named, if `matches` have its values.
fn chosen<'a>(matches: &ArgMatches<'a>) -> Option<Job<'a>>
    ensures some { IfSome result (λ j. IsReadAs (subcommand_rows_of matches.now) j) }
    ensures numbers { IfSome result IsInRange }
    ensures none { result ≡ None → is_read (subcommand_rows_of matches.now) ≡ false }
{
    let (name, values) = named(matches)?;
    match name {
        "solve" => solve_job(values),
        "check" => check_job(values),
        "report" => report_job(values),
        "starts" => starts_job(values),
        "chains" => chains_job(values),
        "nested" => nested_job(values),
        "play" => play_job(values),
        "climb" => climb_job(values),
        _ => None,
    }
}

/// The command that `matches` name, with its own matches.
fn named<'m, 'a>(matches: &'m ArgMatches<'a>) -> Option<(&'a str, &'m ArgMatches<'a>)>
    ensures { subcommand_rows_of matches.now
        ≡ option_map (λ p. (p.0.now, rows_of (found_of p.1.now))) result }
{
    matches.subcommand()
}

fn solve_job<'a>(values: &ArgMatches<'a>) -> Option<Job<'a>>
    ensures asked { Reads (commands.solve_among commands.sides)
        (rows_of (found_of values.now)) result }
    ensures numbers { IfSome result IsInRange }
{
    let workers = number(values, "workers", MAX_WORKERS)?;
    let side = side_if_given(values)?;
    let limit = limit(values)?;
    let symmetries = text(values, "symmetries");
    let board = text(values, "board")?;
    Some(Job::Solve {
        workers,
        side,
        limit,
        symmetries,
        board,
    })
}

fn check_job<'a>(values: &ArgMatches<'a>) -> Option<Job<'a>>
    ensures asked { Reads commands.check (rows_of (found_of values.now)) result }
    ensures numbers { IfSome result IsInRange }
{
    let board = text(values, "board")?;
    let proof = text(values, "proof")?;
    Some(Job::Check { board, proof })
}

fn report_job<'a>(values: &ArgMatches<'a>) -> Option<Job<'a>>
    ensures asked { Reads commands.report (rows_of (found_of values.now)) result }
    ensures numbers { IfSome result IsInRange }
{
    let workers = number(values, "workers", MAX_WORKERS)?;
    let limit = limit(values)?;
    let symmetries = text(values, "symmetries");
    let board = text(values, "board")?;
    Some(Job::Report {
        workers,
        limit,
        symmetries,
        board,
    })
}

fn starts_job<'a>(values: &ArgMatches<'a>) -> Option<Job<'a>>
    ensures asked { Reads commands.starts (rows_of (found_of values.now)) result }
    ensures numbers { IfSome result IsInRange }
{
    let workers = number(values, "workers", MAX_WORKERS)?;
    let limit = limit(values)?;
    let symmetries = text(values, "symmetries");
    let board = text(values, "board")?;
    Some(Job::Starts {
        workers,
        limit,
        symmetries,
        board,
    })
}

fn chains_job<'a>(values: &ArgMatches<'a>) -> Option<Job<'a>>
    ensures asked { Reads commands.chains (rows_of (found_of values.now)) result }
    ensures numbers { IfSome result IsInRange }
{
    let workers = number(values, "workers", MAX_WORKERS)?;
    let most = number(values, "most", MAX_LENGTH)?;
    let board = text(values, "board")?;
    Some(Job::Chains {
        workers,
        most,
        board,
    })
}

fn nested_job<'a>(values: &ArgMatches<'a>) -> Option<Job<'a>>
    ensures asked { Reads commands.nested (rows_of (found_of values.now)) result }
    ensures numbers { IfSome result IsInRange }
{
    let levels = number(values, "levels", MAX_BOARD_LEVELS)?;
    let pebbles = number(values, "pebbles", MAX_PEBBLES as u8)?;
    Some(Job::Nested { levels, pebbles })
}

fn play_job<'a>(values: &ArgMatches<'a>) -> Option<Job<'a>>
    ensures asked { Reads (commands.play_among commands.sides)
        (rows_of (found_of values.now)) result }
    ensures numbers { IfSome result IsInRange }
{
    let side = side(values)?;
    let limit = limit(values)?;
    let symmetries = text(values, "symmetries");
    let board = text(values, "board")?;
    Some(Job::Play {
        side,
        limit,
        symmetries,
        board,
    })
}

fn climb_job<'a>(values: &ArgMatches<'a>) -> Option<Job<'a>>
    ensures asked { Reads commands.climb (rows_of (found_of values.now)) result }
    ensures numbers { IfSome result IsInRange }
{
    let levels = number(values, "levels", MAX_LEVELS as u8)?;
    Some(Job::Climb { levels })
}

/// The side, or none if it is left out.
fn side_if_given(matches: &ArgMatches<'_>) -> Option<Option<Side>>
    ensures { MatchOption result
        (is_read_in (rows_of (found_of matches.now)) (commands.side_among commands.sides false)
        ≡ false) (HasSide (rows_of (found_of matches.now))) }
{
    match text(matches, "side") {
        Some(_) => Some(Some(side(matches)?)),
        None => Some(None),
    }
}

fn side(matches: &ArgMatches<'_>) -> Option<Side>
    ensures { MatchOption result (has_side (rows_of (found_of matches.now)) (codes "side") ≡ false)
        (λ side. HasSide (rows_of (found_of matches.now)) (Some side)) }
{
    match text(matches, "side")? {
        "labeller" => Some(Side::Labeller),
        "adversary" => Some(Side::Adversary),
        _ => None,
    }
}

/// How large the board may be, by whether the word `--large` was given.
fn limit(matches: &ArgMatches<'_>) -> Option<BoardLimit>
    ensures { MatchOption result
        (has_flag (rows_of (found_of matches.now)) (codes "large") ≡ false)
        (λ limit. HasFlag (rows_of (found_of matches.now)) (codes "large") (is_large limit)) }
{
    if flag(matches, "large")? {
        Some(BoardLimit::Large)
    } else {
        Some(BoardLimit::Small)
    }
}

fn flag(matches: &ArgMatches<'_>, id: &str) -> Option<bool>
    ensures { MatchOption result (has_flag (rows_of (found_of matches.now)) id.now ≡ false)
        (HasFlag (rows_of (found_of matches.now)) id.now) }
{
    matches.get_one(id)
}

fn text<'a>(matches: &ArgMatches<'a>, id: &str) -> Option<&'a str>
    ensures { option_map (λ s. s.now) result ≡ first_of id.now (rows_of (found_of matches.now)) }
{
    matches.get_str(id)
}

fn number(matches: &ArgMatches<'_>, id: &str, most: u8) -> Option<u8>
    ensures { MatchOption result (has_number (rows_of (found_of matches.now)) id.now most ≡ false)
        (HasNumber (rows_of (found_of matches.now)) id.now most) }
{
    match matches.get_one::<u8>(id) {
        Some(n) if 1 <= n && n <= most => Some(n),
        _ => None,
    }
}
