//! The board and the document of a joined input.

ghost use Rattle.std.specs.Prelude.{◌≡◌, ◌↔◌, ◌≤◌, ◌<◌, IsTrue, length, ℕ, List};
ghost use Rattle.runs.specs.Joined.{IsEndLine, IsBoardLength};

/// The number of bytes of `input` up to and with its first line that is exactly `end` and a line
/// feed; all of them if there is no such line.
pub fn board_length(input: &[u8]) -> usize
    ensures within { result ≤ length input.now }
    ensures first { IsBoardLength input.now result }
{
    for at in 0..input.len() {
        if is_end_line(input, at) {
            return at + 4;
        }
    }
    input.len()
}

fn is_end_line(input: &[u8], at: usize) -> bool
    requires { at < length input.now }
    ensures { IsTrue result ↔ IsEndLine input.now at }
{
    (at == 0 || input[at - 1] == b'\n') && input[at..].starts_with(b"end\n")
}

/// The board's length in an input is one number.
pub fn one_board_length()
    ensures { (input : List ℕ) (m n : ℕ) → IsBoardLength input m → IsBoardLength input n → m ≡ n }
{}
