//! The line that says a fault. It takes no memory, so that it can be said that memory is out.

ghost use Rattle.std.specs.Prelude.{◌≡◌, ◌<◌, ◌≤◌, length};
ghost use Rattle.board_text.specs.LineForms.{with_line_feed};
ghost use Rattle.serving.specs.FaultLines.{line_at as words_at, line_of_fault, name_of_board_kind};
ghost use Rattle.serving.specs.FaultLines.{line_of_map, line_of_symmetries, name_of_proof_kind};

use arrayvec::ArrayString;
use board_text::BoardKind;
use itoa::Buffer;
use proof_text::ProofKind;
use runs::{RunFault, SymmetriesFault};
use symmetries::MapFault;

/// A fault line has at most this many bytes.
pub(crate) const MAX_LINE_BYTES: usize = 48;

/// The bytes of a fault line.
pub(crate) type FaultLine = ArrayString<MAX_LINE_BYTES>;

/// The line that says the fault, with its line feed.
pub(crate) fn fault_line(fault: RunFault) -> FaultLine
    ensures { result.bytes ≡ line_of_fault fault }
{
    match fault {
        RunFault::Board(fault) => line_at("board", fault.line, board_kind_name(fault.kind)),
        RunFault::TooLarge => line("board too large"),
        RunFault::DocumentTooLarge => line("document too large"),
        RunFault::LastsForever => line("start lasts forever"),
        RunFault::TooManyChains => line("too many chains"),
        RunFault::TooManyOrbits => line("too many orbits"),
        RunFault::Proof(fault) => line_at("proof", fault.line, proof_kind_name(fault.kind)),
        RunFault::Symmetries(fault) => symmetries_line(fault),
        RunFault::Memory => line("out of memory"),
        RunFault::Worker => line("worker not started"),
        RunFault::Read => line("read fault"),
        RunFault::Write => line("write fault"),
        RunFault::Limit => line("input too long"),
    }
}

/// A line of these words.
fn line(words: &str) -> FaultLine
    requires { length words.now < MAX_LINE_BYTES }
    ensures { result.bytes ≡ with_line_feed words.now }
{
    let mut line = ArrayString::new();
    line.push_str(words);
    line.push_str("\n");
    line
}

/// The line that says why symmetries that are given can't be taken.
fn symmetries_line(fault: SymmetriesFault) -> FaultLine
    ensures { result.bytes ≡ line_of_symmetries fault }
{
    match fault {
        SymmetriesFault::Text(fault) => {
            line_at("symmetries", fault.line, proof_kind_name(fault.kind))
        }
        SymmetriesFault::Map { number, fault } => map_line(number, fault),
        SymmetriesFault::TooMany => line("too many symmetries"),
    }
}

/// The line that says what is wrong with the map of this number.
fn map_line(number: u8, fault: MapFault) -> FaultLine
    ensures { result.bytes ≡ line_of_map number fault }
{
    let mut line = ArrayString::new();
    line.push_str("wrong symmetry ");
    line.push_str(Buffer::new().format(number));
    match fault {
        MapFault::Missing { label } => {
            line.push_str(" label ");
            line.push_str(Buffer::new().format(label));
        }
        MapFault::Pair { x, y } => {
            line.push_str(" labels ");
            line.push_str(Buffer::new().format(x));
            line.push_str(" ");
            line.push_str(Buffer::new().format(y));
        }
    }
    line.push_str("\n");
    line
}

/// The line that says that a text has a fault of this kind at the line with this number.
fn line_at(text: &str, number: u32, kind: &str) -> FaultLine
    requires text { length text.now ≤ 10 }
    requires kind { length kind.now ≤ 8 }
    ensures { result.bytes ≡ words_at text.now number kind.now }
{
    let mut digits = Buffer::new();
    let mut line = ArrayString::new();
    line.push_str(text);
    line.push_str(" fault line ");
    line.push_str(digits.format(number));
    line.push_str(" ");
    line.push_str(kind);
    line.push_str("\n");
    line
}

/// The name of a kind of fault of a board.
fn board_kind_name(kind: BoardKind) -> &'static str
    ensures name { result.now ≡ name_of_board_kind kind }
    ensures short { length result.now ≤ 8 }
{
    match kind {
        BoardKind::Version => "Version",
        BoardKind::Labels => "Labels",
        BoardKind::Pebbles => "Pebbles",
        BoardKind::Start => "Start",
        BoardKind::Beats => "Beats",
        BoardKind::SelfBeat => "SelfBeat",
        BoardKind::TwoWay => "TwoWay",
        BoardKind::Order => "Order",
        BoardKind::End => "End",
        BoardKind::Trailing => "Trailing",
        BoardKind::Memory => "Memory",
    }
}

/// The name of a kind of fault of a document.
fn proof_kind_name(kind: ProofKind) -> &'static str
    ensures name { result.now ≡ name_of_proof_kind kind }
    ensures short { length result.now ≤ 8 }
{
    match kind {
        ProofKind::Version => "Version",
        ProofKind::Claim => "Claim",
        ProofKind::Section => "Section",
        ProofKind::Row => "Row",
        ProofKind::Label => "Label",
        ProofKind::Pebble => "Pebble",
        ProofKind::Number => "Number",
        ProofKind::Order => "Order",
        ProofKind::End => "End",
        ProofKind::Trailing => "Trailing",
        ProofKind::Memory => "Memory",
    }
}
