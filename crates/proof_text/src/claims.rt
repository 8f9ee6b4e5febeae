//! Reading and writing the claim of a document.

ghost use Rattle.board_text.specs.LineForms.{Takes};
ghost use Rattle.std.specs.Prelude.{◌≡◌, ◌++◌, OnOk, string_bytes};
ghost use Rattle.proof_text.specs.Proof.{IsClaim};
ghost use Rattle.proof_text.specs.ProofText.{claim_line, claim_words};

use crate::proof::MAX_TURNS;
use board_text::line_reader::LineReader;
use positions::Claim;
use std::alloc::AllocError;
use std::fmt::Write;

/// Takes the line of a claim from `text`, and returns the claim.
pub(crate) fn read_claim(text: &mut LineReader<'_>) -> Option<Claim>
    ensures { Takes IsClaim claim_line result text.old text.new }
{
    if text.begins_with(b'v') {
        return Some(Claim::Exactly(text.number_line(b"value", 0, MAX_TURNS)?));
    }
    if text.begins_with(b'l') {
        return Some(Claim::AtLeast(text.number_line(b"least", 0, MAX_TURNS)?));
    }
    if text.begins_with(b'm') {
        return Some(Claim::AtMost(text.number_line(b"most", 0, MAX_TURNS)?));
    }
    text.take(b"forever\n")?;
    Some(Claim::Forever)
}

/// Appends `claim` as a document has it: its word and, if it has one, its number.
pub fn write_claim(text: &mut String, claim: Claim) -> Result<(), AllocError>
    ensures { OnOk result (string_bytes text.new ≡ string_bytes text.old ++ claim_words claim) }
{
    match claim {
        Claim::Exactly(number) => write!(text, "value {number}"),
        Claim::AtLeast(number) => write!(text, "least {number}"),
        Claim::AtMost(number) => write!(text, "most {number}"),
        Claim::Forever => text.push_str("forever"),
    }
}
