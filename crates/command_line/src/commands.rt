//! The program's commands, with the texts of their help.

ghost use Rattle.std.specs.Prelude.{◌≡◌, IfOk, List, codes, false, true};
ghost use Rattle.clap.specs.Words.{Text, app_of, fault_of, is_simple, is_simple_and_free, rule_of};
ghost use Rattle.clap.specs.Words.{shape_of, subcommand_of, takes, with_rule};
ghost use Rattle.clap.specs.declared.builder.command.Command.TheViews.{out-Command};
ghost use Rattle.command_line.specs.Commands as commands;

use crate::asked::MAX_WORKERS;
use board_text::MAX_PEBBLES;
use chains::{MAX_CHAINS, MAX_LENGTH};
use clap::{Arg, ArgAction, Command, value_parser};
use nested_cycles::{MAX_BOARD_LEVELS, MAX_LEVELS};
use positions::MAX_CONFIGURATIONS;
use std::alloc::{AllocError, Global};

/// The program's version, and the first lines of the texts that it reads and writes. `clap` takes
/// the option from it, and `words` shows it.
pub(crate) const VERSION: &str =
    "pebbles 1.1.0\nreads `board 1`, `board 2`, `proof 1`, `proof 2` and `proof 3`, \
    writes these, `report 1`, `starts 1` and `chains 1`\n";

/// The name of the program.
const NAME: &str = "pebbles";

/// The command may be left out.
const USAGE: &str = "pebbles [--explain] [COMMAND]";

/// The purpose of the program.
const ABOUT: &str = "Finds and checks strategies for the pebble game, whose boards are bounded\n\
    timestamp systems.\n\n\
    Without a command it reads a board and after it a strategy document from\n\
    standard input, and writes what `check` writes.";

/// The word that comes with or without a command, the meaning of the exit statuses, and an example.
const AFTER_HELP: &str = "With or without a command:\n      \
    --explain  Explain faults on standard error, as at a terminal\n\n\
    Exit statuses:\n  \
    0  done, or help or the version was asked for\n  \
    1  a fault in the text of a board or a document, or one that is too large\n  \
    2  wrong words on the command line\n  \
    3  the document was refused\n  \
    4  out of memory, or a worker that was not started\n  \
    5  a failed read or write, or an input that is too long\n\n\
    Example:\n  \
    pebbles nested 2 2 > cycle.board\n  \
    pebbles solve cycle.board > cycle.proof\n  \
    pebbles check cycle.board cycle.proof";

// The helps of `solve`, `report`, `starts`, `check` and `play` say this limit.
const _: () = prove!(MAX_CONFIGURATIONS == 1_048_576);

// The help of `chains` says this limit.
const _: () = prove!(MAX_CHAINS == 68_719_476_736);

/// The help of `solve`.
const ABOUT_SOLVING: &str =
    "Writes the strategy document of the board, which `check` accepts. It is the\n\
    same for every number of workers, of which several gain time on large boards\n\
    alone. With --large it is the document by classes, whose rows say nothing of\n\
    which pebble holds which label.\n\n\
    With --symmetries its rows are for all configurations that the maps in FILE\n\
    take to one another, which are solved as one: then --large takes any number of\n\
    gaps.\n\n\
    With --side its claim is `least` or `forever` for the labeller, `most` for the\n\
    adversary.\n\n\
    Common faults:\n  \
    board fault line 1 Version   not `board 1` or `board 2`: Windows line ends\n  \
    board fault line 4 Start     each pebble's label, below V, or `-` in `board 2`\n  \
    board fault line N Beats     not `beats` and two labels, with single spaces\n  \
    board fault line N Order     pairs not sorted as numbers, or one stands twice\n  \
    board too large              labels^pebbles is above 1048576; try --large\n  \
    document too large           above 134217728 bytes, more than `check` reads\n  \
    start lasts forever          --side adversary: there is no strategy for it\n  \
    symmetries fault line N Row  a map without an image for each label\n  \
    wrong symmetry N labels X Y  the map N doesn't keep that X dominates Y\n  \
    too many symmetries          the maps make more than 131072\n  \
    too many orbits              the maps leave too many gaps; name more of them\n\n\
    Example:\n  \
    pebbles solve chain.board > chain.proof";

/// The help of `report`.
const ABOUT_REPORTING: &str =
    "The report is the same for every number of workers, of which several gain time\n\
    on large boards alone. With --symmetries what the maps in FILE take to one\n\
    another is solved as one: then --large takes any number of gaps.\n\n\
    Common faults:\n  \
    board fault line 1 Version  neither `board 1` nor `board 2`: Windows line ends\n  \
    board fault line 4 Start    each pebble's label, below V, or `-` in `board 2`\n  \
    board fault line N Beats    not `beats` and two labels, with single spaces\n  \
    board fault line N Order    pairs not sorted as numbers, or one is there twice\n  \
    board too large             labels^pebbles is above 1048576; try --large\n\n\
    Example:\n  \
    pebbles report chain.board";

/// The help of `starts`.
const ABOUT_STARTS: &str =
    "A line for each label has the value with all pebbles on it, and in a `board 2`\n\
    one more the value with none on a label. If any start lasts for ever, one of\n\
    these does. The text is the same for every number of workers, of which several\n\
    gain time on large boards alone. With --symmetries what the maps in FILE take to\n\
    one another is solved as one: then --large takes any number of gaps.\n\n\
    Common faults:\n  \
    board fault line 1 Version  neither `board 1` nor `board 2`: Windows line ends\n  \
    board fault line 4 Start    each pebble's label, below V, or `-` in `board 2`\n  \
    board fault line N Beats    not `beats` and two labels, with single spaces\n  \
    board fault line N Order    pairs not sorted as numbers, or one is there twice\n  \
    board too large             labels^pebbles is above 1048576; try --large\n\n\
    Example:\n  \
    pebbles starts chain.board";

/// The help of `chains`.
const ABOUT_CHAINS: &str =
    "In a chain each label dominates all before it. The number of chains is written\n\
    for each length, up to the first with a chain that no label dominates, and that\n\
    chain. As many processes as its labels last for ever from each label, and any\n\
    label that dominates the others' labels is a right answer. More may last if\n\
    answers are chosen, which `solve` tells. The pebbles and the start of the board\n\
    are not used.\n\n\
    Common faults:\n  \
    board fault line 1 Version  no board: Windows line ends, a strategy document\n  \
    board fault line N Beats    not `beats` and two labels, with single spaces\n  \
    board fault line N Order    pairs not sorted as numbers, or one is there twice\n  \
    too many chains             above 68719476736 of one length; try --most\n\n\
    Example:\n  \
    pebbles chains chain.board";

/// The help of `check`. Numbers in helps are words: `clap` takes texts that live as long as the
/// job's own words do, so that none can be made from a constant.
const ABOUT_CHECKING: &str =
    "Writes one line: `accepted` and the claim, or `refused` and the first rule of\n\
    checking that the document breaks, with the exit status 3. The rows of a\n\
    document are for configurations, or if its first line is `proof 2` for classes,\n\
    or `proof 3` for all that the symmetries that it names take to one another;\n\
    then the board may be of any size.\n\n\
    Common faults:\n  \
    board fault line 1 Version  BOARD is no board; are the two paths exchanged?\n  \
    board too large             for a `proof 1`: labels^pebbles is above 1048576\n  \
    proof fault line 1 Version  PROOF is not a strategy document\n  \
    proof fault line N Section  more rows than the first line of a section says\n  \
    proof fault line N Row      fewer rows, or a row that is not of this board\n  \
    proof fault line N Order    rows not sorted by their configurations\n\n\
    Example:\n  \
    pebbles check chain.board chain.proof";

/// The help of `play`.
const ABOUT_PLAYING: &str =
    "The program writes the value of the start, then `at` and the labels of the\n\
    pebbles, and again after each answer. You type one of these on a line:\n  \
    a pebble's number, from 0  as the adversary: `pebble p takes v` is written\n  \
    a label                    as the labeller, for the pebble of `ask p`\n  \
    quit                       ends the play, as the end of input does\n\n\
    To anything else it answers `not a request` or `not an answer`, and the play\n\
    goes on. It also ends if no label is legal. As the labeller on a board that\n\
    lasts for ever you read `no strategy`: the adversary has none. With --symmetries\n\
    what the maps in FILE take to one another is solved as one: then --large takes\n\
    any number of gaps.\n\n\
    Common faults:\n  \
    board fault line 1 Version  neither `board 1` nor `board 2`: Windows line ends\n  \
    board fault line 4 Start    each pebble's label, below V, or `-` in `board 2`\n  \
    board fault line N Order    pairs not sorted as numbers, or one is there twice\n  \
    board too large             labels^pebbles is above 1048576; try --large\n  \
    input too long              a line of yours has more than 64 bytes\n\n\
    Example:\n  \
    pebbles play --side adversary chain.board";

/// The help of `climb`.
const ABOUT_CLIMBING: &str =
    "The board has as many pebbles as levels, and is never built. A label is written\n\
    as its word, a digit for each level but the first. You type one of these on a\n\
    line:\n  \
    a pebble's number, from 0  the program answers `pebble p takes` and a word\n  \
    quit                       ends the play, as the end of input does\n\n\
    To anything else it answers `not a request`, and the play goes on.\n\n\
    Example:\n  \
    pebbles climb 3";

/// The words for the two sides of a play.
static SIDES: [&str; 2] = ["labeller", "adversary"];

/// All commands.
pub(crate) fn program<'a>(alloc: Global) -> Result<Command<'a>, AllocError>
    ensures simple { IfOk result (λ c. is_simple (app_of c) ≡ true) }
    ensures free { IfOk result (λ c. is_simple_and_free (app_of c) ≡ true) }
    ensures takes { IfOk result (λ c. (words : List Text)
        → takes (app_of c) words ≡ takes commands.program words) }
    ensures reads { IfOk result (λ c. (words : List Text)
        → subcommand_of (app_of c) words ≡ subcommand_of commands.program words) }
    ensures faults { IfOk result (λ c. (words : List Text)
        → fault_of (app_of c) words ≡ fault_of commands.program words) }
{
    program_among(alloc, SIDES.as_slice())
}

/// All commands, with the words `sides` for the sides of a play.
fn program_among<'a>(alloc: Global, sides: &'a [&'a str]) -> Result<Command<'a>, AllocError>
    ensures { IfOk result (λ c. app_of c ≡ commands.program_among sides.entry) }
{
    let command = Command::new(alloc, NAME)
        .bin_name(NAME)?
        .version(VERSION)
        .about(ABOUT)
        .override_usage(USAGE)
        .after_help(AFTER_HELP)
        .subcommand_required(true);
    let command = command.subcommand(solve(alloc, sides)?)?;
    let command = command.subcommand(check(alloc)?)?;
    let command = command.subcommand(report(alloc)?)?;
    let command = command.subcommand(starts(alloc)?)?;
    let command = command.subcommand(chains(alloc)?)?;
    let command = command.subcommand(nested(alloc)?)?;
    let command = command.subcommand(play(alloc, sides)?)?;
    let command = command.subcommand(climb(alloc)?)?;
    Ok(command)
}

fn solve<'a>(alloc: Global, sides: &'a [&'a str]) -> Result<Command<'a>, AllocError>
    ensures shape { IfOk result (λ c. shape_of c ≡ commands.solve_among sides.entry) }
    ensures local { IfOk result (λ c. (out-Command c).has_globals ≡ false) }
{
    let command = Command::new(alloc, "solve")
        .about("Reads a board, and writes its start's value and strategies for it")
        .after_help(ABOUT_SOLVING)
        .arg(workers(alloc))?
        .arg(side(alloc, sides, false, "One side alone"))?;
    on_board(alloc, command)
}

fn check<'a>(alloc: Global) -> Result<Command<'a>, AllocError>
    ensures shape { IfOk result (λ c. shape_of c ≡ commands.check) }
    ensures local { IfOk result (λ c. (out-Command c).has_globals ≡ false) }
{
    let board = path(alloc, "board", "BOARD", "The path of a board");
    let proof = path(
        alloc,
        "proof",
        "PROOF",
        "The path of a strategy document for the board",
    );
    Command::new(alloc, "check")
        .about("Reads a board and a document, and writes whether it shows its claim")
        .after_help(ABOUT_CHECKING)
        .arg(board)?
        .arg(proof)?
        .arg(explain(alloc))
}

fn report<'a>(alloc: Global) -> Result<Command<'a>, AllocError>
    ensures shape { IfOk result (λ c. shape_of c ≡ commands.report) }
    ensures local { IfOk result (λ c. (out-Command c).has_globals ≡ false) }
{
    let command = Command::new(alloc, "report")
        .about("Reads a board, and writes how many configurations have each value")
        .after_help(ABOUT_REPORTING)
        .arg(workers(alloc))?;
    on_board(alloc, command)
}

fn starts<'a>(alloc: Global) -> Result<Command<'a>, AllocError>
    ensures shape { IfOk result (λ c. shape_of c ≡ commands.starts) }
    ensures local { IfOk result (λ c. (out-Command c).has_globals ≡ false) }
{
    let command = Command::new(alloc, "starts")
        .about("Reads a board, and writes the value with all pebbles on each label")
        .after_help(ABOUT_STARTS)
        .arg(workers(alloc))?;
    on_board(alloc, command)
}

fn chains<'a>(alloc: Global) -> Result<Command<'a>, AllocError>
    ensures shape { IfOk result (λ c. shape_of c ≡ commands.chains) }
    ensures local { IfOk result (λ c. (out-Command c).has_globals ≡ false) }
{
    let command = Command::new(alloc, "chains")
        .about("Reads a board, and counts the chains of labels of each length")
        .after_help(ABOUT_CHAINS)
        .arg(workers(alloc))?
        .arg(most(alloc))?;
    on_any_board(alloc, command)
}

fn nested<'a>(alloc: Global) -> Result<Command<'a>, AllocError>
    ensures shape { IfOk result (λ c. shape_of c ≡ commands.nested) }
    ensures local { IfOk result (λ c. (out-Command c).has_globals ≡ false) }
{
    let levels = count(
        alloc,
        "levels",
        "LEVELS",
        MAX_BOARD_LEVELS,
        "How many levels, 1 to 6",
    );
    let pebbles = count(
        alloc,
        "pebbles",
        "PEBBLES",
        MAX_PEBBLES as u8,
        "How many pebbles, 1 to 6",
    );
    Command::new(alloc, "nested")
        .about("Writes the board of the nested three-cycle, all pebbles on label 0")
        .after_help(
            "Level 1 is one label. Each further level is the three-cycle with a copy of the\n\
            level before in place of each label.\n\n\
            Example:\n  pebbles nested 3 3",
        )
        .arg(levels)?
        .arg(pebbles)?
        .arg(explain(alloc))
}

fn play<'a>(alloc: Global, sides: &'a [&'a str]) -> Result<Command<'a>, AllocError>
    ensures shape { IfOk result (λ c. shape_of c ≡ commands.play_among sides.entry) }
    ensures local { IfOk result (λ c. (out-Command c).has_globals ≡ false) }
{
    let command = Command::new(alloc, "play")
        .about("Plays against you on a board, with best requests or best answers")
        .after_help(ABOUT_PLAYING)
        .arg(side(alloc, sides, true, "Your side"))?;
    on_board(alloc, command)
}

fn climb<'a>(alloc: Global) -> Result<Command<'a>, AllocError>
    ensures shape { IfOk result (λ c. shape_of c ≡ commands.climb) }
    ensures local { IfOk result (λ c. (out-Command c).has_globals ≡ false) }
{
    let levels = count(
        alloc,
        "levels",
        "LEVELS",
        MAX_LEVELS as u8,
        "How many levels and pebbles, 1 to 24",
    );
    Command::new(alloc, "climb")
        .about("Answers your requests on a nested board, for ever and without a search")
        .after_help(ABOUT_CLIMBING)
        .arg(levels)?
        .arg(explain(alloc))
}

/// The command with the words that all commands on a board take which solve it.
fn on_board<'a>(alloc: Global, command: Command<'a>) -> Result<Command<'a>, AllocError>
    ensures app { IfOk result (λ c. app_of c ≡ with_rule (with_rule (with_rule (with_rule
        (app_of command.entry) commands.symmetries) commands.large)
        (commands.path (codes "board"))) commands.explain) }
    ensures local { (out-Command command.entry).has_globals ≡ false
        → IfOk result (λ c. (out-Command c).has_globals ≡ false) }
{
    let board = path(alloc, "board", "BOARD", "The path of a board");
    command
        .arg(symmetries(alloc))?
        .arg(large(alloc))?
        .arg(board)?
        .arg(explain(alloc))
}

/// The command with the words of one on a board of any size.
fn on_any_board<'a>(alloc: Global, command: Command<'a>) -> Result<Command<'a>, AllocError>
    ensures app { IfOk result (λ c. app_of c ≡ with_rule (with_rule (app_of command.entry)
        (commands.path (codes "board"))) commands.explain) }
    ensures local { (out-Command command.entry).has_globals ≡ false
        → IfOk result (λ c. (out-Command c).has_globals ≡ false) }
{
    let board = path(alloc, "board", "BOARD", "The path of a board");
    command.arg(board)?.arg(explain(alloc))
}

/// The option for a side, one of the words `sides`, which must be given or may be left out.
fn side<'a>(alloc: Global, sides: &'a [&'a str], must_be_given: bool, help: &'a str) -> Arg<'a>
    ensures rule { rule_of result ≡ commands.side_among sides.entry must_be_given }
    ensures local { result.global ≡ false }
{
    Arg::new(alloc, "side")
        .long("side")
        .value_name("SIDE")
        .required(must_be_given)
        .value_parser(sides)
        .help(help)
}

/// A path that must be given.
fn path<'a>(alloc: Global, id: &'a str, name: &'a str, help: &'a str) -> Arg<'a>
    ensures rule { rule_of result ≡ commands.path id.entry.now }
    ensures local { result.global ≡ false }
{
    Arg::new(alloc, id)
        .value_name(name)
        .required(true)
        .help(help)
}

/// A number from 1 to `most` that must be given.
fn count<'a>(alloc: Global, id: &'a str, name: &'a str, most: u8, help: &'a str) -> Arg<'a>
    ensures rule { rule_of result ≡ commands.number id.entry.now most }
    ensures local { result.global ≡ false }
{
    Arg::new(alloc, id)
        .value_name(name)
        .required(true)
        .value_parser(value_parser!(u8).range(1..=most as i64))
        .help(help)
}

/// The word after which a board is limited by its gaps and not by its configurations.
fn large<'a>(alloc: Global) -> Arg<'a>
    ensures rule { rule_of result ≡ commands.large }
    ensures local { result.global ≡ false }
{
    word(
        alloc,
        "large",
        "Take boards up to 536870912 gaps; `solve` by classes",
    )
}

/// The word after which faults are explained.
fn explain<'a>(alloc: Global) -> Arg<'a>
    ensures rule { rule_of result ≡ commands.explain }
    ensures local { result.global ≡ false }
{
    word(
        alloc,
        "explain",
        "Explain faults on standard error, as at a terminal",
    )
}

/// A word that is given or not.
fn word<'a>(alloc: Global, name: &'a str, help: &'a str) -> Arg<'a>
    ensures rule { rule_of result ≡ commands.word name.entry.now }
    ensures local { result.global ≡ false }
{
    Arg::new(alloc, name)
        .long(name)
        .action(ArgAction::SetTrue)
        .help(help)
}

/// The option for the greatest length of chains, 1 to `MAX_LENGTH`; the greatest of all if it isn't
/// given.
fn most<'a>(alloc: Global) -> Arg<'a>
    ensures rule { rule_of result ≡ commands.most }
    ensures local { result.global ≡ false }
{
    Arg::new(alloc, "most")
        .long("most")
        .value_name("K")
        .default_value("8")
        .value_parser(value_parser!(u8).range(1..=MAX_LENGTH as i64))
        .help("Stop after the chains of K labels, 1 to 8")
}

/// The option for the path of symmetries, which may be left out.
fn symmetries<'a>(alloc: Global) -> Arg<'a>
    ensures rule { rule_of result ≡ commands.symmetries }
    ensures local { result.global ≡ false }
{
    Arg::new(alloc, "symmetries")
        .long("symmetries")
        .value_name("FILE")
        .help("Solve up to the symmetries in FILE")
}

/// The option for the number of workers, 1 to `MAX_WORKERS`; 1 if it isn't given.
fn workers<'a>(alloc: Global) -> Arg<'a>
    ensures rule { rule_of result ≡ commands.workers }
    ensures local { result.global ≡ false }
{
    Arg::new(alloc, "workers")
        .long("workers")
        .value_name("N")
        .default_value("1")
        .value_parser(value_parser!(u8).range(1..=MAX_WORKERS as i64))
        .help("How many workers share the work, 1 to 16")
}
