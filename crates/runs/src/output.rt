//! The one line that a check writes.

ghost use Rattle.std.specs.Prelude.{◌≡◌, ◌<◌, ◌++◌, IfOk, OnOk, string_bytes};
ghost use Rattle.proof_check.specs.ClassFaults.{IsOrderNumber, NamesClass};
ghost use Rattle.positions.specs.Ranks.{configurations};
ghost use Rattle.proof_check.specs.CheckFaults.{NamesRanks};
ghost use Rattle.proof_check.specs.SymmetryFaults.{NamesRow};
ghost use Rattle.command_line.specs.Reading.{side_word as word_of_side};
ghost use Rattle.runs.specs.Output.{line_of, turn_word as word_of_turn, row_words, fault_words};
ghost use Rattle.runs.specs.Output.{class_turn_word as word_of_class_turn, class_row_words};
ghost use Rattle.runs.specs.Output.{class_fault_words, map_fault_words, symmetry_fault_words};
ghost use Rattle.runs.specs.Inside.Verdicts.{NamesRows};

use crate::verdicts::Verdict;
use board_text::{Board, Memory};
use positions::{Space, write_labels};
use proof_check::{CheckFault, ClassFault, MapFault, Side, SymmetryFault, write_class};
use proof_text::write_claim;
use std::alloc::{AllocError, Global};
use std::fmt::Write;

/// The line of a verdict, built before anything is written.
pub(crate) fn line(alloc: Global, board: &Board, verdict: Verdict) -> Result<String, Memory>
    requires { NamesRows board.now verdict }
    ensures { IfOk result (λ text. string_bytes text ≡ line_of board.now verdict) }
{
    let mut text = String::new(alloc);
    match verdict {
        Verdict::Accepted { shown, .. } => {
            text.push_str("accepted ")?;
            write_claim(&mut text, shown.claim)?;
        }
        Verdict::Refused(fault) => {
            text.push_str("refused ")?;
            write_fault(&mut text, &Space::new(board), fault)?;
        }
        Verdict::RefusedByClasses(fault) => {
            text.push_str("refused ")?;
            write_class_fault(&mut text, board, fault)?;
        }
        Verdict::RefusedUpToSymmetries(fault) => {
            text.push_str("refused ")?;
            write_symmetry_fault(&mut text, board, fault)?;
        }
    }
    text.push_str("\n")?;
    Ok(text)
}

fn write_fault(text: &mut String, space: &Space, fault: CheckFault) -> Result<(), AllocError>
    requires { NamesRanks space.now fault }
    ensures { OnOk result (string_bytes text.new ≡ string_bytes text.old
        ++ fault_words space.now fault) }
{
    match fault {
        CheckFault::StartMissing { side } => {
            text.push_str(side_word(side))?;
            text.push_str(" start missing")
        }
        CheckFault::StartNumber { side } => {
            text.push_str(side_word(side))?;
            text.push_str(" start number")
        }
        CheckFault::IllegalAnswer { at, pebble } => {
            write_row(text, space, Side::Labeller, at, pebble as u16)?;
            text.push_str(" illegal answer")
        }
        CheckFault::Unlisted { side, at, turn } => {
            write_row(text, space, side, at, turn)?;
            text.push_str(" unlisted")
        }
        CheckFault::TooSmall { at, pebble } => {
            write_row(text, space, Side::Labeller, at, pebble as u16)?;
            text.push_str(" too small")
        }
        CheckFault::NotStuck { at, label } => {
            write_row(text, space, Side::Adversary, at, label)?;
            text.push_str(" not stuck")
        }
        CheckFault::TooLarge { at, label } => {
            write_row(text, space, Side::Adversary, at, label)?;
            text.push_str(" too large")
        }
        CheckFault::Memory => Ok(()),
    }
}

/// Writes which row and which of its turns is faulty.
fn write_row(
    text: &mut String,
    space: &Space,
    side: Side,
    at: u32,
    turn: u16,
) -> Result<(), AllocError>
    requires { at < configurations space.now }
    ensures { OnOk result (string_bytes text.new ≡ string_bytes text.old
        ++ row_words space.now side at turn) }
{
    text.push_str(side_word(side))?;
    text.push_str(" row")?;
    write_labels(text, space, at)?;
    text.push_str(turn_word(side))?;
    write!(text, "{turn}")
}

fn write_class_fault(text: &mut String, board: &Board, fault: ClassFault) -> Result<(), AllocError>
    requires { NamesClass board.now fault }
    ensures { OnOk result (string_bytes text.new ≡ string_bytes text.old
        ++ class_fault_words board.now fault) }
{
    match fault {
        ClassFault::StartMissing { side } => {
            text.push_str(side_word(side))?;
            text.push_str(" start missing")
        }
        ClassFault::StartNumber { side } => {
            text.push_str(side_word(side))?;
            text.push_str(" start number")
        }
        ClassFault::IllegalAnswer { at, pebble } => {
            write_class_row(text, board, Side::Labeller, at, pebble as u16)?;
            text.push_str(" illegal answer")
        }
        ClassFault::Unlisted { side, at, turn } => {
            write_class_row(text, board, side, at, turn)?;
            text.push_str(" unlisted")
        }
        ClassFault::TooSmall { at, pebble } => {
            write_class_row(text, board, Side::Labeller, at, pebble as u16)?;
            text.push_str(" too small")
        }
        ClassFault::NotStuck { at, label } => {
            write_class_row(text, board, Side::Adversary, at, label)?;
            text.push_str(" not stuck")
        }
        ClassFault::TooLarge { at, label } => {
            write_class_row(text, board, Side::Adversary, at, label)?;
            text.push_str(" too large")
        }
    }
}

/// Writes which row of a document by classes and which of its turns is faulty.
fn write_class_row(
    text: &mut String,
    board: &Board,
    side: Side,
    at: u64,
    turn: u16,
) -> Result<(), AllocError>
    requires { IsOrderNumber board.now at }
    ensures { OnOk result (string_bytes text.new ≡ string_bytes text.old
        ++ class_row_words board.now side at turn) }
{
    text.push_str(side_word(side))?;
    text.push_str(" row")?;
    write_class(text, board, at)?;
    text.push_str(class_turn_word(side))?;
    write!(text, "{turn}")
}

fn write_symmetry_fault(
    text: &mut String,
    board: &Board,
    fault: SymmetryFault,
) -> Result<(), AllocError>
    requires { NamesRow board.now fault }
    ensures { OnOk result (string_bytes text.new ≡ string_bytes text.old
        ++ symmetry_fault_words board.now fault) }
{
    match fault {
        SymmetryFault::Map { number, fault } => write_map_fault(text, number, fault),
        SymmetryFault::TooMany => text.push_str("symmetries too many"),
        SymmetryFault::NotLeast { side, at } => {
            text.push_str(side_word(side))?;
            text.push_str(" row")?;
            write_class(text, board, at)?;
            text.push_str(" not the least alike")
        }
        SymmetryFault::Row(fault) => write_class_fault(text, board, fault),
        SymmetryFault::Memory => Ok(()),
    }
}

/// Writes what is wrong with the map of this number.
fn write_map_fault(text: &mut String, number: u8, fault: MapFault) -> Result<(), AllocError>
    ensures { OnOk result (string_bytes text.new ≡ string_bytes text.old
        ++ map_fault_words number fault) }
{
    match fault {
        MapFault::Missing { label } => write!(text, "symmetry {number} label {label}"),
        MapFault::Pair { x, y } => write!(text, "symmetry {number} labels {x} {y}"),
    }
}

fn side_word(side: Side) -> &'static str
    ensures { result.now ≡ word_of_side side }
{
    match side {
        Side::Labeller => "labeller",
        Side::Adversary => "adversary",
    }
}

fn turn_word(side: Side) -> &'static str
    ensures { result.now ≡ word_of_turn side }
{
    match side {
        Side::Labeller => " pebble ",
        Side::Adversary => " label ",
    }
}

fn class_turn_word(side: Side) -> &'static str
    ensures { result.now ≡ word_of_class_turn side }
{
    match side {
        Side::Labeller => " place ",
        Side::Adversary => " label ",
    }
}
