//! Configurations as they are written.

ghost use Rattle.std.specs.Prelude.{◌≡◌, ◌<◌, ◌++◌, OnOk, string_bytes};
ghost use Rattle.board_text.specs.PlaceForms.{spaced_places};
ghost use Rattle.positions.specs.Ranks.{configurations, configuration_at};

use crate::space::Space;
use board_text::write_place;
use std::alloc::AllocError;

/// Appends the places of the configuration of rank `at` to `text`, each with a space before it: a
/// label, or a hyphen if the pebble holds none.
pub fn write_labels(text: &mut String, space: &Space, at: u32) -> Result<(), AllocError>
    requires { at < configurations space.now }
    ensures { OnOk result (string_bytes text.new ≡ string_bytes text.old
        ++ spaced_places space.now.labels (configuration_at space.now at)) }
{
    for pebble in 0..space.pebbles() {
        write_place(text, space.labels(), space.label_at(at, pebble))?;
    }
    Ok(())
}
