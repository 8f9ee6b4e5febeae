//! Jobs of the command line, and why words give none.

ghost use Rattle.std.specs.Prelude.{◌≡◌};
ghost use Rattle.command_line.specs.declared.asked.JobFault.TheVariants as fault;

use positions::Side;
use std::alloc::AllocError;

/// The largest number of workers that may be asked for.
pub const MAX_WORKERS: u8 = 16;

/// How large the board of a job may be.
#[derive(Clone, Copy, Debug, PartialEq, Eq)]
pub enum BoardLimit {
    /// At most `MAX_CONFIGURATIONS` configurations.
    Small,
    /// At most `MAX_GAPS` gaps, which are the classes of all pebbles but one.
    Large,
}

/// A job that the program is asked to do.
#[derive(Clone, Copy, Debug, PartialEq, Eq)]
pub enum Job<'a> {
    /// Check the strategy document that follows a board on standard input.
    Joined,
    /// Check the strategy document for the board. Both are paths.
    Check {
        board: &'a str,
        proof: &'a str,
    },
    /// Write the nested board with 1 to `MAX_BOARD_LEVELS` levels and 1 to `MAX_PEBBLES` pebbles.
    Nested {
        levels: u8,
        pebbles: u8,
    },
    /// Solve the board, a path, with 1 to `MAX_WORKERS` workers, and write its strategy document,
    /// which is that by classes if the board may be large, for this side alone or for both.
    /// `symmetries` is the path of symmetries of its domain, if there is one: then values are found
    /// up to these, and the document is written so.
    Solve {
        workers: u8,
        side: Option<Side>,
        limit: BoardLimit,
        symmetries: Option<&'a str>,
        board: &'a str,
    },
    /// Solve the board, a path, with 1 to `MAX_WORKERS` workers, and write the number of
    /// configurations of each value. With a path of symmetries values are found up to these.
    Report {
        workers: u8,
        limit: BoardLimit,
        symmetries: Option<&'a str>,
        board: &'a str,
    },
    /// Solve the board, a path, with 1 to `MAX_WORKERS` workers, and write the value with all
    /// pebbles on each label. With a path of symmetries values are found up to these.
    Starts {
        workers: u8,
        limit: BoardLimit,
        symmetries: Option<&'a str>,
        board: &'a str,
    },
    /// Count the chains of the board, a path, with 1 to `MAX_WORKERS` workers: of each length up to
    /// the first with a chain that no label dominates, or up to `most`, 1 to `MAX_LENGTH`.
    Chains {
        workers: u8,
        most: u8,
        board: &'a str,
    },
    /// Play on the board, a path. The person plays this side, by lines of standard input, and the
    /// program the other one. With a path of symmetries values are found up to these.
    Play {
        side: Side,
        limit: BoardLimit,
        symmetries: Option<&'a str>,
        board: &'a str,
    },
    /// Play on the nested board with 1 to `MAX_LEVELS` levels, and as many pebbles. The person is
    /// the adversary, by lines of standard input.
    Climb {
        levels: u8,
    },
}

/// Why words give no job.
#[derive(Debug, Drop)]
pub enum JobFault {
    /// Help, or the version, was asked for.
    Help { text: String },
    /// The words are none of the program's.
    Usage { text: String },
    /// A growth of memory was refused.
    Memory,
}

impl From<AllocError> for JobFault {
    ghost from_gives = { λ _ f. f ≡ fault.Memory };

    fn from(_error: AllocError) -> JobFault {
        JobFault::Memory
    }
}
