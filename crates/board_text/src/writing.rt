//! Writing numbers and places.

ghost use Rattle.std.specs.Prelude.{◌≡◌, ◌+◌, ◌<◌, ◌++◌, ◌∷◌, [], OnOk, string_bytes};
ghost use Rattle.std.specs.Fmt.{decimal};
ghost use Rattle.board_text.specs.PlaceForms.{place_word, spaced_places};

use std::alloc::AllocError;
use std::fmt::Write;

/// Appends `places` to `text`, each with a space before it.
pub fn write_places(text: &mut String, labels: u16, places: &[u16]) -> Result<(), AllocError>
    ensures { OnOk result (string_bytes text.new ≡ string_bytes text.old
        ++ spaced_places labels places.now) }
{
    for place in places {
        write_place(text, labels, *place)?;
    }
    Ok(())
}

/// Appends `place` with a space before it: its label,
/// or a hyphen if it is `labels`, which stands for none.
pub fn write_place(text: &mut String, labels: u16, place: u16) -> Result<(), AllocError>
    ensures { OnOk result (string_bytes text.new ≡ string_bytes text.old
        ++ 32 ∷ place_word labels place) }
{
    if place == labels {
        text.push_str(" -")
    } else {
        write_number(text, u32::from(place))
    }
}

/// Appends `number` with a space before it.
pub fn write_number(text: &mut String, number: u32) -> Result<(), AllocError>
    ensures { OnOk result (string_bytes text.new ≡ string_bytes text.old ++ 32 ∷ decimal number) }
{
    if number >= 1000 {
        return write!(text, " {number}");
    }
    // Labels have up to three digits: they are pushed one by one, without a call.
    text.push(' ')?;
    if number >= 100 {
        push_digit(text, number / 100)?;
    }
    if number >= 10 {
        push_digit(text, number / 10 % 10)?;
    }
    push_digit(text, number % 10)
}

/// Appends `number`, which is below 10, as a digit.
fn push_digit(text: &mut String, number: u32) -> Result<(), AllocError>
    requires { number < 10 }
    ensures { OnOk result (string_bytes text.new ≡ string_bytes text.old ++ (48 + number) ∷ []) }
{
    text.push((b'0' + number as u8) as char)
}
