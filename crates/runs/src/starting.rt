//! The value of a board with all pebbles on each of its labels.

ghost use Rattle.std.specs.Prelude.{◌≡◌, ◌++◌, IfOk, OnOk, string_bytes};
ghost use Rattle.runs.specs.StartText.{AreStartValues, AreStartsOf, place_name, place_value_line};
ghost use Rattle.runs.specs.StartText.{place_value_lines};

use crate::reporting::write_size;
use board_text::{Board, MAX_PEBBLES, Memory};
use gap_values::ValueTable;
use positions::{Claim, Value};
use proof_text::write_claim;
use std::alloc::{AllocError, Global};
use std::fmt::Write;
use strategies::GapMoves;

/// The text of the starts of the board of `moves`. The error is that memory ran out.
pub(crate) fn starts_by<V: ValueTable>(
    alloc: Global,
    moves: &GapMoves<'_, V>,
) -> Result<String, Memory>
    ensures { IfOk result (λ text. AreStartsOf moves.now (string_bytes text)) }
{
    let values = values_at_places(alloc, moves)?;
    Ok(starts_of(alloc, moves.board(), values.as_slice())?)
}

/// The values with all pebbles at each place of the board of `moves`.
fn values_at_places<V: ValueTable>(
    alloc: Global,
    moves: &GapMoves<'_, V>,
) -> Result<Vec<Value>, Memory>
    ensures { IfOk result (λ values. AreStartValues moves.now values.items) }
{
    let board = moves.board();
    let mut values = Vec::new(alloc);
    for place in 0..board.places() {
        let held = [place; MAX_PEBBLES];
        values.push(moves.value(&held[..board.pebbles() as usize]))?;
    }
    Ok(values)
}

/// The text of the starts of `board` with these `values`.
fn starts_of(alloc: Global, board: &Board, values: &[Value]) -> Result<String, AllocError>
    requires { AreStartValues board.now values.now }
    ensures { IfOk result (λ text. AreStartsOf board.now (string_bytes text)) }
{
    let mut text = String::new(alloc);
    text.push_str("starts 1\n")?;
    write_size(&mut text, "labels", u64::from(board.labels()))?;
    write_size(&mut text, "pebbles", u64::from(board.pebbles()))?;
    write_starts(&mut text, u64::from(board.labels()), values)?;
    text.push_str("end\n")?;
    Ok(text)
}

/// Writes a line for each of the places from 0 on, with its value.
fn write_starts(text: &mut String, labels: u64, values: &[Value]) -> Result<(), AllocError>
    ensures { OnOk result (string_bytes text.new ≡ string_bytes text.old
        ++ place_value_lines labels 0 values.now) }
{
    for place in 0..values.len() {
        write_start(text, labels, place as u64, values[place])?;
    }
    Ok(())
}

/// Writes the line of a place and its value.
fn write_start(text: &mut String, labels: u64, place: u64, value: Value) -> Result<(), AllocError>
    ensures { OnOk result (string_bytes text.new ≡ string_bytes text.old
        ++ place_value_line labels place value) }
{
    write_place_name(text, labels, place)?;
    text.push_str(": ")?;
    write_claim(text, Claim::from(value))?;
    text.push_str("\n")
}

/// Writes the words of a label, or of the place after the labels.
fn write_place_name(text: &mut String, labels: u64, place: u64) -> Result<(), AllocError>
    ensures { OnOk result (string_bytes text.new ≡ string_bytes text.old
        ++ place_name labels place) }
{
    if place < labels {
        write!(text, "label {place}")
    } else {
        text.push_str("none")
    }
}
