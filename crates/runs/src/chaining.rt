//! Counting the chains of a board.

ghost use Rattle.std.specs.Prelude.{◌≡◌, ◌++◌, ◌≤◌, ℕ, true, false, IfOk, IfErr, List, OnOk};
ghost use Rattle.std.specs.Prelude.{codes, length, option_map, string_bytes};
ghost use Rattle.std.specs.Fmt.{decimal};
ghost use Rattle.board_text.specs.LineForms.{with_line_feed};
ghost use Rattle.board_text.specs.PlaceForms.{places_line};
ghost use Rattle.board_text.specs.Ranges.{InRange};
ghost use Rattle.console.specs.Showing.{IsMore};
ghost use Rattle.runs.specs.ChainText.{CannotCountChains, SaysChains, chains_text, last_lines};
ghost use Rattle.runs.specs.ChainText.{length_line, length_lines};
ghost use Rattle.runs.specs.Inside.Chaining.{IsToldOfText};
ghost use Rattle.runs.specs.Notices.{IsToldOfChains};
ghost use Rattle.runs.specs.Report.{size_line};
ghost use Rattle.runs.specs.Run.{Ran, Fails, TellsStreams, bytes_of, stream_of};

use crate::boards::any_board;
use crate::fault::RunFault;
use crate::notices::LengthLines;
use crate::reading::{MAX_BOARD_BYTES, read_text};
use crate::reporting::write_size;
use crate::writing::write_text;
use board_text::{Board, Sink, Source, write_places};
use chains::{ChainCounts, ChainWalk, MAX_LENGTH};
use std::alloc::{AllocError, Global};
use std::fmt::Write;
use std::thread::Threads;

/// How the chains of a board are counted.
#[derive(Clone, Copy, Debug, PartialEq, Eq)]
pub struct Chaining {
    /// The most threads, 1 or more.
    pub workers: u8,
    /// The largest number of labels of a chain, 1 to `MAX_LENGTH`.
    pub most: u8,
    /// Whether a person is told of lengths with many chains, before they are gone through.
    pub shows_lengths: bool,
}

impl Chaining {
    /// Reads a board, of any size, and writes how many chains it has of each length: up to the
    /// first length with a chain that no label dominates, with the first such chain, or up to
    /// `most` labels. The bytes written are the same for every number of workers. A person is told
    /// on `errors` what is to be told.
    ///
    /// The reader and the writer must not have failed before, nor the reader have reported its end.
    /// Nothing is written before the whole text is built. If `errors` fails, or has failed before,
    /// nothing more is written there, and the run goes on.
    pub fn run<R: Source, W: Sink, E: Sink>(
        self,
        rt: &(impl Threads + Sync),
        alloc: Global,
        reader: &mut R,
        writer: &mut W,
        errors: &mut E,
    ) -> Result<(), RunFault>
        requires workers { 1 ≤ self.workers }
        requires most { InRange 1 MAX_LENGTH self.most }
        requires reader_ready { R.has_failed reader.old ≡ false }
        requires reader_unended { R.has_ended reader.old ≡ false }
        requires writer_ready { W.has_failed writer.old ≡ false }
        ensures ok { IfOk result (Ran (SaysChains self.most) MAX_BOARD_BYTES
            (bytes_of R.remaining reader.old reader.new)
            (bytes_of W.contents writer.old writer.new)) }
        ensures fault { IfErr result (Fails (SaysChains self.most) (CannotCountChains self.most)
            MAX_BOARD_BYTES (bytes_of R.remaining reader.old reader.new)
            (bytes_of W.contents writer.old writer.new)) }
        ensures streams { TellsStreams result (R.has_failed reader.new ≡ true)
            (stream_of W.contents W.has_failed writer.old writer.new) }
        ensures lengths { (told : List ℕ) × IsToldOfChains self.most
            (bytes_of R.remaining reader.old reader.new) self.shows_lengths result told
            × IsMore E.contents E.has_failed errors.old errors.new told }
    {
        let text = read_text(alloc, reader, MAX_BOARD_BYTES)?;
        let chains = self.chains_of(rt, alloc, text.as_slice(), errors)?;
        write_text(writer, &chains)
    }

    /// The text of the chains of the board whose text is `text`.
    fn chains_of<E: Sink>(
        self,
        rt: &(impl Threads + Sync),
        alloc: Global,
        text: &[u8],
        errors: &mut E,
    ) -> Result<String, RunFault>
        requires workers { 1 ≤ self.workers }
        requires most { InRange 1 MAX_LENGTH self.most }
        ensures chains { IfOk result (λ chains.
            SaysChains self.most text.now tt (string_bytes chains)) }
        ensures fault { IfErr result (CannotCountChains self.most text.now) }
        ensures lengths { (told : List ℕ) × IsToldOfText self.most text.now self.shows_lengths
            result told × IsMore E.contents E.has_failed errors.old errors.new told }
    {
        let board = any_board(alloc, text)?;
        let lines = LengthLines {
            are_shown: self.shows_lengths,
        };
        let walk = ChainWalk {
            most: self.most,
            workers: self.workers,
        };
        let found = walk.count(rt, alloc, &board, &lines, errors)?;
        Ok(text_of(alloc, &board, &found)?)
    }
}

/// The text of the chains that were found on `board`.
fn text_of(alloc: Global, board: &Board, found: &ChainCounts) -> Result<String, AllocError>
    requires { length found.now.counts.items ≤ MAX_LENGTH }
    ensures { IfOk result (λ text. string_bytes text ≡ chains_text board.now
        found.now.counts.items (option_map (λ chain. chain.items) found.now.undominated)) }
{
    let mut text = String::new(alloc);
    text.push_str("chains 1\n")?;
    write_size(&mut text, "labels", u64::from(board.labels()))?;
    write_lengths(&mut text, found.counts.as_slice())?;
    write_last(&mut text, board.labels(), found)?;
    text.push_str("end\n")?;
    Ok(text)
}

/// Writes a line for each of the numbers of chains `counts`, which are those of the lengths from 1
/// on.
fn write_lengths(text: &mut String, counts: &[u64]) -> Result<(), AllocError>
    requires { length counts.now ≤ MAX_LENGTH }
    ensures { OnOk result (string_bytes text.new ≡ string_bytes text.old
        ++ length_lines 1 counts.now) }
{
    for index in 0..counts.len() {
        write_length(text, index as u64 + 1, counts[index])?;
    }
    Ok(())
}

/// Writes the line of a length and the number of its chains.
fn write_length(text: &mut String, size: u64, count: u64) -> Result<(), AllocError>
    ensures { OnOk result (string_bytes text.new ≡ string_bytes text.old
        ++ length_line size count) }
{
    write!(text, "length {size}: {count}\n")
}

/// Writes the first chain that no label dominates, if there is one, and the number of processes
/// that last for ever by any label that dominates the others' labels.
fn write_last(text: &mut String, labels: u16, found: &ChainCounts) -> Result<(), AllocError>
    requires { length found.now.counts.items ≤ MAX_LENGTH }
    ensures { OnOk result (string_bytes text.new ≡ string_bytes text.old
        ++ last_lines labels (length found.now.counts.items)
        (option_map (λ chain. chain.items) found.now.undominated)) }
{
    match &found.undominated {
        Some(chain) => write_undominated(text, labels, chain.as_slice()),
        None => write_more(text, found.counts.len() as u64 + 1),
    }
}

/// Writes the chain that no label dominates, and as many processes.
fn write_undominated(text: &mut String, labels: u16, chain: &[u16]) -> Result<(), AllocError>
    ensures { OnOk result (string_bytes text.new ≡ string_bytes text.old
        ++ (places_line labels (codes "undominated") chain.now
        ++ size_line (codes "processes") (length chain.now))) }
{
    text.push_str("undominated")?;
    write_places(text, labels, chain)?;
    text.push_str("\n")?;
    write_size(text, "processes", chain.len() as u64)
}

/// Writes that this many processes last, or more.
fn write_more(text: &mut String, processes: u64) -> Result<(), AllocError>
    ensures { OnOk result (string_bytes text.new ≡ string_bytes text.old
        ++ with_line_feed (codes "processes " ++ decimal processes ++ codes " or more")) }
{
    write!(text, "processes {processes} or more\n")
}
