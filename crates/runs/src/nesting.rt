//! The text of a nested board, and writing it.

ghost use Rattle.std.specs.Prelude.{◌≡◌, ◌≢◌, ◌↔◌, true, false, Err, IfOk, IfErr, OnOk};
ghost use Rattle.std.specs.Prelude.{string_bytes};
ghost use Rattle.board_text.specs.Ranges.{InRange};
ghost use Rattle.runs.specs.NestedText.{IsNestedText};
ghost use Rattle.runs.specs.Run.{Wrote, WrotePrefix, bytes_of};
ghost use Rattle.runs.specs.Texts.{IsMemory};
ghost use Rattle.runs.specs.declared.fault.RunFault.TheVariants.{Memory, Write};

use crate::fault::RunFault;
use crate::writing::write_text;
use board_text::{MAX_PEBBLES, Sink, print};
use nested_cycles::{MAX_BOARD_LEVELS, nested_board};
use std::alloc::Global;

/// Writes the text of the nested board of a level, 1 to `MAX_BOARD_LEVELS`, with 1 to `MAX_PEBBLES`
/// pebbles, all on label 0.
///
/// The writer must not have failed before. After `Memory` nothing was written, and after `Write` a
/// prefix of the text was.
pub fn run_nested<W: Sink>(
    alloc: Global,
    levels: u8,
    pebbles: u8,
    writer: &mut W,
) -> Result<(), RunFault>
    requires levels { InRange 1 MAX_BOARD_LEVELS levels }
    requires pebbles { InRange 1 MAX_PEBBLES pebbles }
    requires ready { W.has_failed writer.old ≡ false }
    ensures ok { OnOk result (Wrote (IsNestedText levels pebbles)
        (bytes_of W.contents writer.old writer.new)) }
    ensures kinds { IfErr result (λ fault. fault ≢ Write → (fault ≡ Memory)
        × (writer.new ≡ writer.old)) }
    ensures prefix { result ≡ Err Write
        → WrotePrefix (IsNestedText levels pebbles) (bytes_of W.contents writer.old writer.new) }
    ensures write { (W.has_failed writer.new ≡ true) ↔ (result ≡ Err Write) }
{
    let text = nested_text(alloc, levels, pebbles)?;
    write_text(writer, &text)
}

/// The text of the nested board of a level, 1 to `MAX_BOARD_LEVELS`, with 1 to `MAX_PEBBLES`
/// pebbles, all on label 0.
pub fn nested_text(alloc: Global, levels: u8, pebbles: u8) -> Result<String, RunFault>
    requires levels { InRange 1 MAX_BOARD_LEVELS levels }
    requires pebbles { InRange 1 MAX_PEBBLES pebbles }
    ensures text { IfOk result (λ text. IsNestedText levels pebbles (string_bytes text)) }
    ensures memory { IfErr result IsMemory }
{
    let board = nested_board(alloc, levels, pebbles)?;
    Ok(print(alloc, &board)?)
}
