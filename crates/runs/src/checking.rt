//! Checks, over readers and writers: of a board with a document after it, and of two texts.

ghost use Rattle.std.specs.Prelude.{◌≡◌, ◌⊎◌, true, false, IfOk, IfErr};
ghost use Rattle.runs.specs.Verdicts.{CannotAnswer, IsAnswered};
ghost use Rattle.runs.specs.BoardRun.{readers_of};
ghost use Rattle.runs.specs.CheckRun.{CheckFails, KeepsText, RanCheck};
ghost use Rattle.runs.specs.Run.{Ran, Fails, TellsStreams, Wrote, WrotePrefix, bytes_of, stream_of};
ghost use Rattle.runs.specs.declared.fault.RunFault.TheVariants.{Write};
ghost use Rattle.runs.specs.declared.verdicts.Verdict.{Verdict as VerdictData};

use crate::fault::RunFault;
use crate::reading::{MAX_BOARD_BYTES, read_any_board, read_text};
use crate::verdicts::{Verdict, check_joined_text, check_text};
use crate::writing::write_text;
use board_text::{Sink, Source};
use std::alloc::Global;
use std::thread::Threads;

/// The most bytes of a joined input.
pub const MAX_JOINED_BYTES: usize = 134_217_728;

/// The most bytes of a strategy document.
pub const MAX_PROOF_BYTES: usize = 134_217_728;

/// Reads a board and a document after it, checks the document and writes one line.
///
/// The reader and the writer must not have failed before, nor the reader have reported its end.
/// After a fault nothing was written, but for `Write`, after which a prefix of the line was.
pub fn run_joined<R: Source, W: Sink>(
    rt: &(impl Threads + Sync),
    alloc: Global,
    reader: &mut R,
    writer: &mut W,
) -> Result<Verdict, RunFault>
    requires reader_ready { R.has_failed reader.old ≡ false }
    requires reader_unended { R.has_ended reader.old ≡ false }
    requires writer_ready { W.has_failed writer.old ≡ false }
    ensures ok { IfOk result (Ran IsAnswered MAX_JOINED_BYTES
        (bytes_of R.remaining reader.old reader.new) (bytes_of W.contents writer.old writer.new)) }
    ensures fault { IfErr result (Fails IsAnswered CannotAnswer MAX_JOINED_BYTES
        (bytes_of R.remaining reader.old reader.new) (bytes_of W.contents writer.old writer.new)) }
    ensures streams { TellsStreams result (R.has_failed reader.new ≡ true)
        (stream_of W.contents W.has_failed writer.old writer.new) }
{
    run_joined_with_text(rt, alloc, reader, writer).result
}

/// How a check of a joined input ended, and the bytes that were read: none if they weren't read to
/// their end.
#[derive(Drop)]
pub struct JoinedRun {
    pub result: Result<Verdict, RunFault>,
    pub text: Vec<u8>,
}

/// Does what `run_joined` does, and gives the bytes that were read too, by which a fault can be
/// explained.
pub fn run_joined_with_text<R: Source, W: Sink>(
    rt: &(impl Threads + Sync),
    alloc: Global,
    reader: &mut R,
    writer: &mut W,
) -> JoinedRun
    requires reader_ready { R.has_failed reader.old ≡ false }
    requires reader_unended { R.has_ended reader.old ≡ false }
    requires writer_ready { W.has_failed writer.old ≡ false }
    ensures ok { IfOk result.result (Ran IsAnswered MAX_JOINED_BYTES
        (bytes_of R.remaining reader.old reader.new) (bytes_of W.contents writer.old writer.new)) }
    ensures fault { IfErr result.result (Fails IsAnswered CannotAnswer MAX_JOINED_BYTES
        (bytes_of R.remaining reader.old reader.new) (bytes_of W.contents writer.old writer.new)) }
    ensures streams { TellsStreams result.result (R.has_failed reader.new ≡ true)
        (stream_of W.contents W.has_failed writer.old writer.new) }
    ensures text { KeepsText MAX_JOINED_BYTES (bytes_of R.remaining reader.old reader.new)
        result.result result.text.items }
{
    match read_text(alloc, reader, MAX_JOINED_BYTES) {
        Ok(text) => {
            let result = answer_joined(rt, alloc, text.as_slice(), writer);
            JoinedRun { result, text }
        }
        Err(fault) => JoinedRun {
            result: Err(fault),
            text: Vec::new(alloc),
        },
    }
}

/// Writes the verdict on the document after the board in `text`, and gives it.
fn answer_joined<W: Sink>(
    rt: &(impl Threads + Sync),
    alloc: Global,
    text: &[u8],
    writer: &mut W,
) -> Result<Verdict, RunFault>
    requires writer_ready { W.has_failed writer.old ≡ false }
    ensures ok { IfOk result (λ verdict. Wrote (IsAnswered text.now verdict)
        (bytes_of W.contents writer.old writer.new)) }
    ensures fault { IfErr result (λ fault. CannotAnswer text.now fault ⊎ ((fault ≡ Write)
        × (verdict : VerdictData) × WrotePrefix (IsAnswered text.now verdict)
        (bytes_of W.contents writer.old writer.new))) }
    ensures streams { TellsStreams result ⊥
        (stream_of W.contents W.has_failed writer.old writer.new) }
{
    let answer = check_joined_text(rt, alloc, text)?;
    write_text(writer, &answer.line)?;
    Ok(answer.verdict)
}

/// Reads a board and then a strategy document for it, checks the document and writes one line.
///
/// The board is read and parsed before anything of the document is read. One whose document is by
/// classes may have any number of configurations, any other at most `MAX_CONFIGURATIONS`.
/// No reader or writer must have failed before, nor a reader have reported its end. After a fault
/// nothing was written, but for `Write`, after which a prefix of the line was.
pub fn run_check<B: Source, P: Source, W: Sink>(
    rt: &(impl Threads + Sync),
    alloc: Global,
    board: &mut B,
    proof: &mut P,
    writer: &mut W,
) -> Result<Verdict, RunFault>
    requires board_ready { B.has_failed board.old ≡ false }
    requires board_unended { B.has_ended board.old ≡ false }
    requires proof_ready { P.has_failed proof.old ≡ false }
    requires proof_unended { P.has_ended proof.old ≡ false }
    requires writer_ready { W.has_failed writer.old ≡ false }
    ensures ok { IfOk result (RanCheck MAX_BOARD_BYTES MAX_PROOF_BYTES
        (readers_of B.remaining board.old board.new P.remaining proof.old proof.new)
        (bytes_of W.contents writer.old writer.new)) }
    ensures fault { IfErr result (CheckFails MAX_BOARD_BYTES MAX_PROOF_BYTES
        (readers_of B.remaining board.old board.new P.remaining proof.old proof.new)
        (bytes_of W.contents writer.old writer.new)) }
    ensures streams { TellsStreams result
        ((B.has_failed board.new ≡ true) ⊎ (P.has_failed proof.new ≡ true))
        (stream_of W.contents W.has_failed writer.old writer.new) }
{
    let board = read_any_board(alloc, board)?;
    let text = read_text(alloc, proof, MAX_PROOF_BYTES)?;
    let answer = check_text(rt, alloc, &board, text.as_slice())?;
    write_text(writer, &answer.line)?;
    Ok(answer.verdict)
}
