//! Documents that are read, printed and checked. A call that was refused memory is made once more.

ghost use Rattle.std.specs.Prelude.{◌≤◌, IfOk};
ghost use Rattle.positions.specs.Ranks.{configurations};
ghost use Rattle.proof_text.specs.Documents.{IsDocument, IsSymmetryDocument};

use board_text::{Board, Memory};
use positions::{MAX_CONFIGURATIONS, Space};
use proof_check::{CheckFault, Shown, check};
use proof_text::{
    Images, Proof, ProofFault, ProofKind, SymmetryProof, parse, parse_symmetric, parse_symmetries,
    print, print_symmetric,
};
use std::alloc::Global;
use std::thread::Threads;

/// The answer of `parse`, which is asked once more if it was refused memory.
pub fn read_document(alloc: Global, space: &Space, bytes: &[u8]) -> Result<Proof, ProofFault>
    ensures { IfOk result (λ proof. IsDocument space.now proof) }
{
    match parse(alloc, space, bytes) {
        Err(
            ProofFault {
                line: 0,
                kind: ProofKind::Memory,
            },
        ) => parse(alloc, space, bytes),
        answer => answer,
    }
}

/// The answer of `print`, which is asked once more if it was refused memory.
pub fn print_document(alloc: Global, space: &Space, proof: &Proof) -> Result<String, Memory>
    requires { IsDocument space.now proof.now }
{
    match print(alloc, space, proof) {
        Err(Memory) => print(alloc, space, proof),
        answer => answer,
    }
}

/// The answer of `parse_symmetric`, which is asked once more if it was refused memory.
pub fn read_symmetric_document(
    alloc: Global,
    board: &Board,
    bytes: &[u8],
) -> Result<SymmetryProof, ProofFault>
    ensures { IfOk result (λ proof. IsSymmetryDocument board.now proof) }
{
    match parse_symmetric(alloc, board, bytes) {
        Err(
            ProofFault {
                line: 0,
                kind: ProofKind::Memory,
            },
        ) => parse_symmetric(alloc, board, bytes),
        answer => answer,
    }
}

/// The answer of `parse_symmetries`, which is asked once more if it was refused memory.
pub fn read_symmetries(
    alloc: Global,
    board: &Board,
    bytes: &[u8],
) -> Result<Vec<Images>, ProofFault> {
    match parse_symmetries(alloc, board, bytes) {
        Err(
            ProofFault {
                line: 0,
                kind: ProofKind::Memory,
            },
        ) => parse_symmetries(alloc, board, bytes),
        answer => answer,
    }
}

/// The answer of `print_symmetric`, which is asked once more if it was refused memory.
pub fn print_symmetric_document(
    alloc: Global,
    board: &Board,
    proof: &SymmetryProof,
) -> Result<String, Memory> {
    match print_symmetric(alloc, board, proof) {
        Err(Memory) => print_symmetric(alloc, board, proof),
        answer => answer,
    }
}

/// The answer of `check`, which is asked once more if it was refused memory.
pub fn check_document(
    rt: &(impl Threads + Sync),
    alloc: Global,
    board: &Board,
    proof: &Proof,
) -> Result<Shown, CheckFault>
    requires few { configurations board.now ≤ MAX_CONFIGURATIONS }
    requires document { IsDocument board.now proof.now }
{
    match check(rt, alloc, board, proof) {
        Err(CheckFault::Memory) => check(rt, alloc, board, proof),
        answer => answer,
    }
}

/// The answer of the checker to the document with this text, if the board is small and the text is
/// a document.
pub fn check_text(
    rt: &(impl Threads + Sync),
    alloc: Global,
    board: &Board,
    text: &[u8],
) -> Option<Result<Shown, CheckFault>> {
    let space = Space::of(board).ok()?;
    let proof = read_document(alloc, &space, text).ok()?;
    Some(check_document(rt, alloc, board, &proof))
}
