//! The answer to a text: its verdict and its line.

ghost use Rattle.std.specs.Prelude.{◌≡◌, ◌+◌, ◌≤◌, IfOk, IfErr, length, string_bytes};
ghost use Rattle.board_text.specs.PlainBoard.{IsBoard};
ghost use Rattle.proof_text.specs.Documents.{IsClassDocument, IsDocument, IsSymmetryDocument};
ghost use Rattle.proof_text.specs.ClassProof.{plain_class_proof};
ghost use Rattle.proof_text.specs.Proof.{plain_proof};
ghost use Rattle.proof_text.specs.SymmetryProof.{plain_symmetry_proof};
ghost use Rattle.positions.specs.Ranks.{configurations};
ghost use Rattle.proof_check.specs.RowNumbers.{AreNumbersOfRows};
ghost use Rattle.runs.specs.Verdicts.{CannotAnswer, IsAnswered, IsChecked, IsClassVerdict};
ghost use Rattle.runs.specs.Verdicts.{IsSymmetryVerdict, IsVerdict};
ghost use Rattle.runs.specs.Inside.Verdicts.{NamesRows};
ghost use Rattle.runs.specs.Texts.{BeginsAs, HasNoProof, IsMemory};
ghost use Rattle.runs.specs.declared.verdicts.DocumentVersion.TheVariants as versions;

use crate::boards::any_board;
use crate::fault::RunFault;
use crate::joined::board_length;
use crate::output::line;
use board_text::Board;
use positions::{MAX_CONFIGURATIONS, Space, is_small};
use proof_check::{
    CheckFault, ClassFault, RowNumbers, Shown, SymmetryFault, check, check_classes, check_symmetric,
};
use proof_text::{
    ClassProof, MAX_CLASS_ROWS, Proof, SymmetryProof, parse, parse_classes, parse_symmetric,
};
use std::alloc::Global;
use std::thread::Threads;

/// The verdict of a check on a document.
#[derive(Clone, Copy, Debug, PartialEq, Eq)]
pub enum Verdict {
    /// The document, which has this number of rows, shows its claim.
    Accepted { shown: Shown, rows: u64 },
    /// The document breaks a rule; the first fault. It is never out of memory.
    Refused(CheckFault),
    /// The document by classes breaks a rule; the first fault.
    RefusedByClasses(ClassFault),
    /// The document up to symmetries breaks a rule; the first fault. It is never out of memory.
    RefusedUpToSymmetries(SymmetryFault),
}

/// A version of documents: what the rows of one are for.
#[derive(Clone, Copy, Debug, PartialEq, Eq)]
pub enum DocumentVersion {
    /// `proof 1`: each row is for a configuration.
    ByConfigurations,
    /// `proof 2`: each row is for a class.
    ByClasses,
    /// `proof 3`: each row is for all configurations that the document's maps take to one another.
    UpToSymmetries,
}

/// The version that the first line of `text` says; without such a line it is that by
/// configurations.
pub fn version_of(text: &[u8]) -> DocumentVersion
    ensures { BeginsAs result text.now }
{
    if text.starts_with(b"proof 2\n") {
        DocumentVersion::ByClasses
    } else if text.starts_with(b"proof 3\n") {
        DocumentVersion::UpToSymmetries
    } else {
        DocumentVersion::ByConfigurations
    }
}

/// A verdict, and the line that says it.
#[derive(Drop)]
pub struct VerdictLine {
    pub verdict: Verdict,
    pub line: String,
}

/// The verdict on the document that comes after the text of its board in `text`, and its line.
pub fn check_joined_text(
    rt: &(impl Threads + Sync),
    alloc: Global,
    text: &[u8],
) -> Result<VerdictLine, RunFault>
    ensures answered { IfOk result
        (λ answer. IsAnswered text.now answer.verdict (string_bytes answer.line)) }
    ensures fault { IfErr result (CannotAnswer text.now) }
{
    let (board_bytes, rest) = text.split_at(board_length(text));
    let board = any_board(alloc, board_bytes)?;
    check_text(rt, alloc, &board, rest)
}

/// The verdict on the document for `board` whose text is `text`, and its line.
///
/// A document by configurations is for a board of at most `MAX_CONFIGURATIONS` configurations, any
/// other may be for one of any size.
pub fn check_text(
    rt: &(impl Threads + Sync),
    alloc: Global,
    board: &Board,
    text: &[u8],
) -> Result<VerdictLine, RunFault>
    requires board { IsBoard board.now }
    ensures checked { IfOk result (λ answer. IsChecked board.now text.now answer.verdict
        (string_bytes answer.line)) }
    ensures fault { IfErr result (HasNoProof board.now text.now) }
{
    match version_of(text) {
        DocumentVersion::ByClasses => check_by_classes(rt, alloc, board, text),
        DocumentVersion::UpToSymmetries => check_up_to_symmetries(rt, alloc, board, text),
        DocumentVersion::ByConfigurations if is_small(board) => {
            check_by_ranks(rt, alloc, board, text)
        }
        DocumentVersion::ByConfigurations => Err(RunFault::TooLarge),
    }
}

/// The verdict on the document by classes whose text is `text`, and its line.
fn check_by_classes(
    rt: &(impl Threads + Sync),
    alloc: Global,
    board: &Board,
    text: &[u8],
) -> Result<VerdictLine, RunFault>
    requires begins { BeginsAs versions.ByClasses text.now }
    ensures checked { IfOk result (λ answer. IsChecked board.now text.now answer.verdict
        (string_bytes answer.line)) }
    ensures fault { IfErr result (HasNoProof board.now text.now) }
{
    let proof = parse_classes(alloc, board, text)?;
    let numbers = RowNumbers::of(alloc, board, &proof)?;
    let verdict = class_verdict_on(rt, board, &proof, &numbers);
    let line = line(alloc, board, verdict)?;
    Ok(VerdictLine { verdict, line })
}

/// The verdict on the document by classes, whose rows have these `numbers`.
fn class_verdict_on(
    rt: &(impl Threads + Sync),
    board: &Board,
    proof: &ClassProof,
    numbers: &RowNumbers,
) -> Verdict
    requires document { IsClassDocument board.now proof.now }
    requires numbers { AreNumbersOfRows board.now proof.now numbers.now }
    ensures verdict { IsClassVerdict board.now (plain_class_proof board.now proof.now) result }
    ensures named { NamesRows board.now result }
{
    match check_classes(rt, board, proof, numbers) {
        Ok(()) => Verdict::Accepted {
            shown: Shown { claim: proof.claim },
            rows: count_rows(&proof.labeller, &proof.adversary),
        },
        Err(fault) => Verdict::RefusedByClasses(fault),
    }
}

/// The verdict on the document up to symmetries whose text is `text`, and its line.
fn check_up_to_symmetries(
    rt: &(impl Threads + Sync),
    alloc: Global,
    board: &Board,
    text: &[u8],
) -> Result<VerdictLine, RunFault>
    requires board { IsBoard board.now }
    requires begins { BeginsAs versions.UpToSymmetries text.now }
    ensures checked { IfOk result (λ answer. IsChecked board.now text.now answer.verdict
        (string_bytes answer.line)) }
    ensures fault { IfErr result (HasNoProof board.now text.now) }
{
    let proof = parse_symmetric(alloc, board, text)?;
    let numbers = RowNumbers::of(alloc, board, &proof.rows)?;
    let verdict = symmetry_verdict_on(rt, alloc, board, &proof, &numbers)?;
    let line = line(alloc, board, verdict)?;
    Ok(VerdictLine { verdict, line })
}

/// The verdict on the document up to symmetries, whose rows have these `numbers`.
fn symmetry_verdict_on(
    rt: &(impl Threads + Sync),
    alloc: Global,
    board: &Board,
    proof: &SymmetryProof,
    numbers: &RowNumbers,
) -> Result<Verdict, RunFault>
    requires document { IsSymmetryDocument board.now proof.now }
    requires numbers { AreNumbersOfRows board.now proof.now.rows numbers.now }
    ensures verdict { IfOk result
        (IsSymmetryVerdict board.now (plain_symmetry_proof board.now proof.now)) }
    ensures named { IfOk result (NamesRows board.now) }
    ensures memory { IfErr result IsMemory }
{
    match check_symmetric(rt, alloc, board, proof, numbers) {
        Ok(()) => Ok(Verdict::Accepted {
            shown: Shown {
                claim: proof.rows.claim,
            },
            rows: count_rows(&proof.rows.labeller, &proof.rows.adversary),
        }),
        Err(SymmetryFault::Memory) => Err(RunFault::Memory),
        Err(fault) => Ok(Verdict::RefusedUpToSymmetries(fault)),
    }
}

/// The verdict on the document by configurations whose text is `text`, and its line.
fn check_by_ranks(
    rt: &(impl Threads + Sync),
    alloc: Global,
    board: &Board,
    text: &[u8],
) -> Result<VerdictLine, RunFault>
    requires few { configurations board.now ≤ MAX_CONFIGURATIONS }
    requires begins { BeginsAs versions.ByConfigurations text.now }
    ensures checked { IfOk result (λ answer. IsChecked board.now text.now answer.verdict
        (string_bytes answer.line)) }
    ensures fault { IfErr result (HasNoProof board.now text.now) }
{
    let space = Space::new(board);
    let proof = parse(alloc, &space, text)?;
    let verdict = verdict_on(rt, alloc, board, &proof)?;
    let line = line(alloc, board, verdict)?;
    Ok(VerdictLine { verdict, line })
}

/// The verdict on the document.
fn verdict_on(
    rt: &(impl Threads + Sync),
    alloc: Global,
    board: &Board,
    proof: &Proof,
) -> Result<Verdict, RunFault>
    requires few { configurations board.now ≤ MAX_CONFIGURATIONS }
    requires document { IsDocument board.now proof.now }
    ensures verdict { IfOk result (IsVerdict board.now (plain_proof board.now proof.now)) }
    ensures named { IfOk result (NamesRows board.now) }
    ensures memory { IfErr result IsMemory }
{
    match check(rt, alloc, board, proof) {
        Ok(shown) => Ok(Verdict::Accepted {
            shown,
            rows: count_rows(&proof.labeller, &proof.adversary),
        }),
        Err(CheckFault::Memory) => Err(RunFault::Memory),
        Err(fault) => Ok(Verdict::Refused(fault)),
    }
}

/// The number of rows of both sides of a document.
fn count_rows<A, R>(labeller: &[A], adversary: &[R]) -> u64
    requires labeller { length labeller.now ≤ MAX_CLASS_ROWS }
    requires adversary { length adversary.now ≤ MAX_CLASS_ROWS }
    ensures { result ≡ length labeller.now + length adversary.now }
{
    labeller.len() as u64 + adversary.len() as u64
}
