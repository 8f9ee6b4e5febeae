//! The notice that a large board is solved, the lines of its rounds, and those of lengths with many
//! chains, for a person at a terminal.

ghost use Rattle.std.specs.Prelude.{◌≡◌, [], codes, if◌then◌else◌, nat_eq};
ghost use Rattle.console.specs.Showing.{IsMore};
ghost use Rattle.runs.specs.Notices.{bytes_words, is_told_of, notice_for, round_line, tenths_words};
ghost use Rattle.runs.specs.Notices.{length_notice, notice_of_length, time_words};

use board_text::{Board, Sink};
use console::{Watch, write_digits, write_more};
use gap_values::{count_gaps, kept_bytes};
use positions::is_small;

/// A board of as many gaps or more is said to take minutes, and one of fewer seconds.
pub(crate) const MINUTES_OF_GAPS: u64 = 100_000_000;

/// A person is told of a length with as many chains or more before they are gone through.
pub(crate) const MANY_CHAINS: u64 = 100_000_000;

/// Says that a large board is solved, with its number of gaps, the memory that its values keep and
/// the time that it can take, if `shows` says that a person is there. Of a board of at most
/// `MAX_CONFIGURATIONS` configurations nothing is said.
pub(crate) fn tell_size<E: Sink>(board: &Board, shows: bool, errors: &mut E)
    ensures { IsMore E.contents E.has_failed errors.old errors.new (notice_for shows board.now) }
{
    if !shows || is_small(board) {
        return;
    }
    let gaps = count_gaps(board);
    write_more(errors, "a large board: its ");
    write_digits(errors, gaps);
    write_more(errors, " gaps, about ");
    write_bytes(errors, kept_bytes(board));
    write_more(errors, ", are solved, which can take ");
    write_more(errors, time_of(gaps));
    write_more(errors, "\n");
}

/// The time that so many `gaps` can take.
fn time_of(gaps: u64) -> &'static str
    ensures { result.now ≡ time_words gaps }
{
    if gaps < MINUTES_OF_GAPS {
        "seconds"
    } else {
        "minutes"
    }
}

/// Writes the number of `bytes`, in tenths of a megabyte or a gigabyte.
fn write_bytes<E: Sink>(errors: &mut E, bytes: u64)
    ensures { IsMore E.contents E.has_failed errors.old errors.new (bytes_words bytes) }
{
    if bytes < 1_000_000_000 {
        write_tenths(errors, bytes.div_ceil(100_000));
        write_more(errors, " MB");
    } else {
        write_tenths(errors, bytes.div_ceil(100_000_000));
        write_more(errors, " GB");
    }
}

/// Writes a number of `tenths` in decimal.
fn write_tenths<E: Sink>(errors: &mut E, tenths: u64)
    ensures { IsMore E.contents E.has_failed errors.old errors.new (tenths_words tenths) }
{
    write_digits(errors, tenths / 10);
    write_more(errors, ".");
    write_digits(errors, tenths % 10);
}

/// The lines that tell a person of the rounds of a board, or nobody.
#[derive(Clone, Copy)]
pub(crate) struct RoundLines {
    /// Whether a person is told.
    are_shown: bool,
}

impl RoundLines {
    /// Those of `board`, if `shows` says that a person is there. Of a board of at most
    /// `MAX_CONFIGURATIONS` configurations nothing is told.
    pub(crate) fn of(board: &Board, shows: bool) -> RoundLines
        ensures { result.are_shown ≡ is_told_of shows board.now }
    {
        RoundLines {
            are_shown: shows && !is_small(board),
        }
    }
}

impl<E: Sink> Watch<E> for RoundLines {
    ghost tells = { λ lines old new round count. IsMore E.contents E.has_failed old new
        (if lines.are_shown then round_line round count else []) };

    fn watches(&self) -> bool {
        self.are_shown
    }

    fn begin(&self, errors: &mut E, round: u32, gaps: u64) {
        if self.are_shown {
            write_round(errors, round, gaps);
        }
    }
}

/// Writes the line that says that `round` begins, with this number of open `gaps`.
fn write_round<E: Sink>(errors: &mut E, round: u32, gaps: u64)
    ensures { IsMore E.contents E.has_failed errors.old errors.new (round_line round gaps) }
{
    write_more(errors, "round ");
    write_digits(errors, u64::from(round));
    write_more(errors, ": ");
    write_digits(errors, gaps);
    write_more(errors, words_of(gaps));
    write_more(errors, "\n");
}

/// The lines that tell a person of lengths with many chains, or nobody.
#[derive(Clone, Copy)]
pub(crate) struct LengthLines {
    /// Whether a person is told.
    pub(crate) are_shown: bool,
}

impl<E: Sink> Watch<E> for LengthLines {
    ghost tells = { λ lines old new size count. IsMore E.contents E.has_failed old new
        (notice_of_length lines.are_shown size count) };

    fn watches(&self) -> bool {
        self.are_shown
    }

    fn begin(&self, errors: &mut E, size: u32, count: u64) {
        if self.are_shown && MANY_CHAINS <= count {
            write_length(errors, size, count);
        }
    }
}

/// Writes the line that says that this number of chains of `size` labels is gone through.
fn write_length<E: Sink>(errors: &mut E, size: u32, count: u64)
    ensures { IsMore E.contents E.has_failed errors.old errors.new (length_notice size count) }
{
    write_digits(errors, count);
    write_more(errors, " chains of ");
    write_digits(errors, u64::from(size));
    write_more(errors, " labels are gone through\n");
}

/// The words after a number of open `gaps`.
fn words_of(gaps: u64) -> &'static str
    ensures { result.now
        ≡ (if nat_eq gaps 1 then codes " gap is open" else codes " gaps are open") }
{
    if gaps == 1 {
        " gap is open"
    } else {
        " gaps are open"
    }
}
