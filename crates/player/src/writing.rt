//! The lines that a play writes.

ghost use Rattle.std.specs.Prelude.{◌≡◌, ◌++◌, None, Some, IfOk, OnOk, string_bytes};
ghost use Rattle.std.specs.Fmt.{decimal};
ghost use Rattle.player.specs.Transcript.{at_line, no_request_line, opening_lines, stopped_line};
ghost use Rattle.player.specs.Transcript.{stuck_line, takes_line};
ghost use Rattle.player.specs.declared.end.PlayEnd.TheVariants.{Stopped};

use crate::end::PlayEnd;
use board_text::{Board, write_places};
use positions::{Claim, Value};
use proof_text::write_claim;
use std::alloc::AllocError;
use std::fmt::Write;

/// Appends the `value` of the start, and its places.
pub(crate) fn write_opening(
    text: &mut String,
    board: &Board,
    value: Value,
) -> Result<(), AllocError>
    ensures { OnOk result (string_bytes text.new ≡ string_bytes text.old
        ++ opening_lines board.now value board.now.start) }
{
    write_claim(text, Claim::from(value))?;
    text.push_str("\n")?;
    write_at(text, board, board.start())
}

/// Appends the places `held` of the pebbles.
pub(crate) fn write_at(text: &mut String, board: &Board, held: &[u16]) -> Result<(), AllocError>
    ensures { OnOk result (string_bytes text.new ≡ string_bytes text.old
        ++ at_line board.now held.now) }
{
    text.push_str("at")?;
    write_places(text, board.labels(), held)?;
    text.push_str("\n")
}

/// Appends the `label` that `pebble` takes, and the places `held` of the pebbles after that.
pub(crate) fn write_reply(
    text: &mut String,
    board: &Board,
    pebble: u8,
    label: u16,
    held: &[u16],
) -> Result<(), AllocError>
    ensures { OnOk result (string_bytes text.new ≡ string_bytes text.old
        ++ (takes_line pebble (decimal label) ++ at_line board.now held.now)) }
{
    write!(text, "pebble {pebble} takes {label}\n")?;
    write_at(text, board, held)
}

/// Appends that no label is legal for `pebble`, after `requests` answered requests.
pub(crate) fn write_stuck(text: &mut String, pebble: u8, requests: u32) -> Result<(), AllocError>
    ensures { OnOk result (string_bytes text.new ≡ string_bytes text.old
        ++ stuck_line pebble requests) }
{
    write!(
        text,
        "no label for pebble {pebble} after {requests} requests\n"
    )
}

/// Appends that the play was stopped, after `requests` answered requests.
pub(crate) fn write_stopped(text: &mut String, requests: u32) -> Result<(), AllocError>
    ensures { OnOk result (string_bytes text.new ≡ string_bytes text.old ++ stopped_line requests) }
{
    write!(text, "stopped after {requests} requests\n")
}

/// Appends the line of a play that the person stops, and returns that end.
pub(crate) fn end_stopped(text: &mut String, requests: u32) -> Result<Option<PlayEnd>, AllocError>
    ensures { IfOk result (λ end. (end ≡ Some (Stopped requests))
        × (string_bytes text.new ≡ string_bytes text.old ++ stopped_line requests)) }
{
    write_stopped(text, requests)?;
    Ok(Some(PlayEnd::Stopped { requests }))
}

/// Appends the reply to a line that is no request; the play goes on.
pub(crate) fn say_no_request(text: &mut String) -> Result<Option<PlayEnd>, AllocError>
    ensures { IfOk result (λ end. (end ≡ None)
        × (string_bytes text.new ≡ string_bytes text.old ++ no_request_line)) }
{
    text.push_str("not a request\n")?;
    Ok(None)
}
