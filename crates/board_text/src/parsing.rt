//! Reading a board's text.

ghost use Rattle.std.specs.Prelude.{◌≡◌, ◌+◌, ◌-◌, ◌≤◌, ◌<◌, [], length, option_map};
ghost use Rattle.std.specs.Prelude.{MatchResult, IfOk, IfErr};
ghost use Rattle.board_text.specs.LineForms.{Takes};
ghost use Rattle.board_text.specs.PlainBoard.{PlainBoard, AreLabels, IsBoard, IsStart};
ghost use Rattle.board_text.specs.BoardText.{start_line, beats_line, board_text};
ghost use Rattle.board_text.specs.declared.fault.BoardKind.TheVariants.{Memory as OutOfMemory};
ghost use Rattle.board_text.specs.BoardFaults.{HasBoardFault};
ghost use Rattle.board_text.specs.Inside.Parsing.{NextPair, PairsRead, PairsFault, HeadRead};

use crate::board::{Board, MAX_LABELS, MAX_PEBBLES, version_of};
use crate::domination::Domination;
use crate::fault::{BoardFault, BoardKind};
use crate::line_reader::LineReader;
use crate::pair_fault::pair_fault;
use std::alloc::Global;

/// Takes a line `beats x y`.
fn take_pair(text: &mut LineReader<'_>, labels: u16) -> Option<(u16, u16)>
    requires { 1 ≤ labels }
    ensures { Takes (AreLabels labels) beats_line result text.old text.new }
{
    let mut pair = [0; 2];
    text.numbers_line(b"beats", &mut pair, labels)?;
    Some((pair[0], pair[1]))
}

/// Takes the next line, and returns its pair, or nothing at the line `end`.
fn next_pair(text: &mut LineReader<'_>, beats: &Domination) -> Result<Option<(u16, u16)>, BoardKind>
    ensures { NextPair beats.now.labels beats.now.pairs result text.old text.new }
{
    if text.take(b"end\n").is_some() {
        return Ok(None);
    }
    if text.is_empty() || text.begins_with(b'e') {
        return Err(BoardKind::End);
    }
    let Some((x, y)) = take_pair(text, beats.labels()) else {
        return Err(BoardKind::Beats);
    };
    match pair_fault(beats, x, y) {
        Some(kind) => Err(kind),
        None => Ok(Some((x, y))),
    }
}

/// Takes the `beats` lines and `end`, and returns the number of the line `end`.
fn read_pairs(text: &mut LineReader<'_>, beats: &mut Domination) -> Result<u32, BoardFault>
    requires { beats.old.pairs ≡ [] }
    ensures labels { beats.new.labels ≡ beats.old.labels }
    ensures read { IfOk result
        (λ line. PairsRead beats.old.labels beats.new.pairs line text.old text.new) }
    ensures fault { IfErr result (λ fault. PairsFault beats.old.labels text.old fault) }
    ensures few { IfOk result (λ line. line ≤ 65541) }
{
    let mut line = 5;
    'lines: loop {
        match next_pair(text, beats) {
            Ok(Some((x, y))) => beats.push(x, y),
            Ok(None) => return Ok(line),
            Err(kind) => return Err(BoardFault { line, kind }),
        }
        line += 1;
    }
}

/// Takes the first three lines, and returns the version and the numbers of labels and pebbles.
fn read_head(text: &mut LineReader<'_>) -> Result<(u8, u16, u8), BoardFault>
    ensures { HeadRead result text.old text.new }
{
    let Some(version) = text.number_line(b"board", 1, 2) else {
        return Err(BoardFault::at(1, BoardKind::Version));
    };
    let Some(labels) = text.number_line(b"labels", 1, MAX_LABELS as u32) else {
        return Err(BoardFault::at(2, BoardKind::Labels));
    };
    let Some(pebbles) = text.number_line(b"pebbles", 1, MAX_PEBBLES as u32) else {
        return Err(BoardFault::at(3, BoardKind::Pebbles));
    };
    Ok((version as u8, labels as u16, pebbles as u8))
}

/// Takes the line of the start, and reads its places into `start`.
fn take_start(text: &mut LineReader<'_>, version: u8, labels: u16, start: &mut [u16]) -> Option<()>
    requires some { 0 < length start.old }
    requires few { labels ≤ MAX_LABELS }
    ensures { Takes (IsStart version labels (length start.old)) (start_line labels)
        (option_map (λ _. start.new) result) text.old text.new }
{
    text.places_line(b"start", start, labels)?;
    if version_of(labels, start) == version {
        Some(())
    } else {
        None
    }
}

/// The board whose text `bytes` are, or the first fault. Memory is taken after the third line.
pub fn parse(alloc: Global, bytes: &[u8]) -> Result<Board, BoardFault>
    // A result is the board of this text.
    ensures found { IfOk result (λ board. IsBoard board × (bytes.now ≡ board_text board)) }
    // A board's text is read, unless memory runs out.
    ensures only { (b : PlainBoard) → IsBoard b → bytes.now ≡ board_text b
        → MatchResult result (λ board. board ≡ b) (λ fault. fault.kind ≡ OutOfMemory) }
    // A fault is the one that the text has.
    ensures fault { IfErr result (λ fault. HasBoardFault bytes.now fault.line fault.kind) }
{
    read(alloc, bytes)
}

fn read(alloc: Global, bytes: &[u8]) -> Result<Board, BoardFault>
    ensures found { IfOk result (λ board. IsBoard board × (bytes.now ≡ board_text board)) }
    ensures fault { IfErr result (λ fault. HasBoardFault bytes.now fault.line fault.kind) }
{
    let mut text = LineReader::new(bytes);
    let (version, labels, pebbles) = read_head(&mut text)?;
    let mut beats = Domination::new(alloc, labels)?;
    let mut start = vec![in alloc; 0; usize::from(pebbles)]?;
    let Some(()) = take_start(&mut text, version, labels, &mut start) else {
        return Err(BoardFault::at(4, BoardKind::Start));
    };
    let last = read_pairs(&mut text, &mut beats)?;
    if !text.is_empty() {
        return Err(BoardFault::at(last + 1, BoardKind::Trailing));
    }
    Ok(Board {
        pebbles,
        start,
        beats,
    })
}
