//! Reading a text to its end, and the board that it is.

ghost use Rattle.std.specs.Prelude.{◌≡◌, ◌≢◌, ◌<◌, ◌↔◌, true, false, Err, IfOk, IfErr};
ghost use Rattle.runs.specs.BoardRun.{GaveBoard, GaveBoardAmong, GaveNoBoard, GaveNoneAmong};
ghost use Rattle.runs.specs.Run.{Gave, IsUnread, bytes_of};
ghost use Rattle.runs.specs.Texts.{IsWithinUpTo, OfAnySize};
ghost use Rattle.runs.specs.declared.fault.RunFault.TheVariants.{Read, Write};

use crate::boards::{any_board, board_within};
use crate::fault::RunFault;
use board_text::{Board, Source, read_all};
use command_line::BoardLimit;
use std::alloc::Global;

/// The most bytes of a board.
pub const MAX_BOARD_BYTES: usize = 1_048_576;

/// All bytes that the reader gives, if they are no more than `limit`.
pub(crate) fn read_text<R: Source>(
    alloc: Global,
    reader: &mut R,
    limit: usize,
) -> Result<Vec<u8>, RunFault>
    requires ready { R.has_failed reader.old ≡ false }
    requires unended { R.has_ended reader.old ≡ false }
    requires countable { limit < usize.MAX }
    ensures ok { IfOk result (λ text. Gave limit
        (bytes_of R.remaining reader.old reader.new) text.items) }
    ensures fault { IfErr result (IsUnread limit (bytes_of R.remaining reader.old reader.new)) }
    ensures read { (R.has_failed reader.new ≡ true) ↔ (result ≡ Err Read) }
{
    Ok(read_all(alloc, reader, limit)?)
}

/// The board within the `limit` whose text the reader gives.
pub(crate) fn read_board<R: Source>(
    alloc: Global,
    limit: BoardLimit,
    reader: &mut R,
) -> Result<Board, RunFault>
    requires ready { R.has_failed reader.old ≡ false }
    requires unended { R.has_ended reader.old ≡ false }
    ensures found { IfOk result (GaveBoard limit MAX_BOARD_BYTES
        (bytes_of R.remaining reader.old reader.new)) }
    ensures fault { IfErr result (GaveNoBoard limit MAX_BOARD_BYTES
        (bytes_of R.remaining reader.old reader.new)) }
    ensures read { (R.has_failed reader.new ≡ true) ↔ (result ≡ Err Read) }
    ensures unwritten { result ≢ Err Write }
{
    let text = read_text(alloc, reader, MAX_BOARD_BYTES)?;
    board_within(alloc, limit, text.as_slice())
}

/// The board, of any size, whose text the reader gives.
pub(crate) fn read_any_board<R: Source>(alloc: Global, reader: &mut R) -> Result<Board, RunFault>
    requires ready { R.has_failed reader.old ≡ false }
    requires unended { R.has_ended reader.old ≡ false }
    ensures found { IfOk result (GaveBoardAmong OfAnySize MAX_BOARD_BYTES
        (bytes_of R.remaining reader.old reader.new)) }
    ensures fault { IfErr result (GaveNoneAmong OfAnySize MAX_BOARD_BYTES
        (bytes_of R.remaining reader.old reader.new)) }
    ensures read { (R.has_failed reader.new ≡ true) ↔ (result ≡ Err Read) }
    ensures unwritten { result ≢ Err Write }
{
    let text = read_text(alloc, reader, MAX_BOARD_BYTES)?;
    any_board(alloc, text.as_slice())
}

/// The board whose text the reader gives, within the `limit` of boards whose values are found up to
/// symmetries of their domains.
pub(crate) fn read_board_up_to<R: Source>(
    alloc: Global,
    limit: BoardLimit,
    reader: &mut R,
) -> Result<Board, RunFault>
    requires ready { R.has_failed reader.old ≡ false }
    requires unended { R.has_ended reader.old ≡ false }
    ensures found { IfOk result (GaveBoardAmong (IsWithinUpTo limit) MAX_BOARD_BYTES
        (bytes_of R.remaining reader.old reader.new)) }
    ensures fault { IfErr result (GaveNoneAmong (IsWithinUpTo limit) MAX_BOARD_BYTES
        (bytes_of R.remaining reader.old reader.new)) }
    ensures read { (R.has_failed reader.new ≡ true) ↔ (result ≡ Err Read) }
    ensures unwritten { result ≢ Err Write }
{
    match limit {
        BoardLimit::Small => read_board(alloc, limit, reader),
        BoardLimit::Large => read_any_board(alloc, reader),
    }
}
