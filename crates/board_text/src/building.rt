//! Making a board of its parts.

ghost use Rattle.std.specs.Prelude.{◌≡◌, ◌+◌, ◌↔◌, IsTrue, [], MatchResult, IfOk, IfErr, OnOk};
ghost use Rattle.board_text.specs.Ranges.{AreNumbers};
ghost use Rattle.board_text.specs.PlainBoard.{plain_board, IsBoard, ArePairs};
ghost use Rattle.board_text.specs.BoardText.{board_text};
ghost use Rattle.board_text.specs.BoardFaults.{HasBoardFault};
ghost use Rattle.board_text.specs.Inside.PairFaults.{HasPairFault};
ghost use Rattle.board_text.specs.declared.fault.BoardKind.TheVariants.{Memory as OutOfMemory};

use crate::board::{Board, MAX_LABELS, MAX_PEBBLES};
use crate::domination::Domination;
use crate::fault::{BoardFault, BoardKind};
use crate::pair_fault::pair_fault;
use std::alloc::Global;

impl Board {
    /// The board of these parts, or the fault that the text of the same content has: at line 2, 3
    /// or 4, or at line 5 + i for the pair number i, counted from 0. Memory is taken after the
    /// third line.
    pub fn build(
        alloc: Global,
        labels: u16,
        pebbles: u8,
        start: &[u16],
        pairs: &[(u16, u16)],
    ) -> Result<Board, BoardFault>
        // A result is a board, and of these parts.
        ensures found { IfOk result (λ board. IsBoard board
            × (board ≡ plain_board labels pebbles start.now pairs.now)) }
        // The parts of a board are built, unless memory runs out.
        ensures only { IsBoard (plain_board labels pebbles start.now pairs.now)
            → MatchResult result (λ board. board ≡ plain_board labels pebbles start.now pairs.now)
            (λ fault. fault.kind ≡ OutOfMemory) }
        // A fault is the one that the text of these parts has.
        ensures fault { IfErr result (λ fault. HasBoardFault
            (board_text (plain_board labels pebbles start.now pairs.now))
            fault.line fault.kind) }
    {
        build_parts(alloc, labels, pebbles, start, pairs)
    }
}

/// Does the work of `build`, whose clause `only` follows from the other two.
fn build_parts(
    alloc: Global,
    labels: u16,
    pebbles: u8,
    start: &[u16],
    pairs: &[(u16, u16)],
) -> Result<Board, BoardFault>
    ensures found { IfOk result (λ board. IsBoard board
        × (board ≡ plain_board labels pebbles start.now pairs.now)) }
    ensures fault { IfErr result (λ fault.
        HasBoardFault
        (board_text (plain_board labels pebbles start.now pairs.now)) fault.line fault.kind) }
{
    if labels == 0 || labels as usize > MAX_LABELS {
        return Err(BoardFault::at(2, BoardKind::Labels));
    }
    if pebbles == 0 || pebbles as usize > MAX_PEBBLES {
        return Err(BoardFault::at(3, BoardKind::Pebbles));
    }
    let mut beats = Domination::new(alloc, labels)?;
    let mut own_start = vec![in alloc; 0; usize::from(pebbles)]?;
    if !is_start(labels, pebbles, start) {
        return Err(BoardFault::at(4, BoardKind::Start));
    }
    own_start.copy_from_slice(start);
    push_pairs(&mut beats, pairs)?;
    Ok(Board {
        pebbles,
        start: own_start,
        beats,
    })
}

/// Whether `start` has a place for each pebble.
fn is_start(labels: u16, pebbles: u8, start: &[u16]) -> bool
    ensures { IsTrue result ↔ AreNumbers pebbles (labels + 1) start.now }
{
    start.len() == usize::from(pebbles) && start.iter().all(|place| *place <= labels)
}

/// Lets the first label of each of `pairs` beat the second, or returns the fault of the first pair
/// that can't follow those before it.
fn push_pairs(beats: &mut Domination, pairs: &[(u16, u16)]) -> Result<(), BoardFault>
    requires { beats.old.pairs ≡ [] }
    ensures labels { beats.new.labels ≡ beats.old.labels }
    ensures pushed { OnOk result (ArePairs beats.old.labels pairs.now
        × (beats.new.pairs ≡ pairs.now)) }
    ensures fault { IfErr result (λ fault. HasPairFault beats.old.labels pairs.now fault) }
{
    let labels = beats.labels();
    let mut line = 5;
    for &(x, y) in pairs {
        if x >= labels || y >= labels {
            return Err(BoardFault::at(line, BoardKind::Beats));
        }
        if let Some(kind) = pair_fault(beats, x, y) {
            return Err(BoardFault::at(line, kind));
        }
        beats.push(x, y);
        line += 1;
    }
    Ok(())
}
