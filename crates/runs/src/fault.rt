//! Why a run ends without an answer, and how the faults of its parts become faults of a run.

ghost use Rattle.std.specs.Prelude.{◌≡◌};
ghost use Rattle.runs.specs.Faults.{fault_of_play};
ghost use Rattle.runs.specs.Inside.Faults.{IsFaultOfBoard, IsFaultOfProof, fault_of_reading};
ghost use Rattle.runs.specs.Inside.Faults.{fault_of_chains, fault_of_making, fault_of_orbits};
ghost use Rattle.runs.specs.Inside.Faults.{fault_of_solving};
ghost use Rattle.runs.specs.declared.fault.RunFault.TheVariants as faults;

use board_text::{BoardFault, BoardKind, Memory, ReadFault};
use chains::ChainFault;
use orbits::OrbitFault;
use player::PlayFault;
use proof_check::MapFault;
use proof_text::{ProofFault, ProofKind};
use solver::SolveFault;
use std::alloc::AllocError;
use strategies::Unmade;

/// Why a run ended without an answer.
#[derive(Clone, Copy, Debug, PartialEq, Eq)]
pub enum RunFault {
    /// The text of the board has a fault.
    Board(BoardFault),
    /// The board is beyond the limit of the run: it has more than `MAX_CONFIGURATIONS`
    /// configurations, or more than `MAX_GAPS` gaps in a run of large boards.
    TooLarge,
    /// The document by classes of the board has more than `MAX_PROOF_BYTES` bytes.
    DocumentTooLarge,
    /// The adversary's side alone is asked for, and requests are answered for ever from the start.
    LastsForever,
    /// The board has more than `MAX_CHAINS` chains of one length.
    TooManyChains,
    /// The board has more than `MAX_ORBITS` orbits up to the symmetries that are given.
    TooManyOrbits,
    /// The text of the document has a fault.
    Proof(ProofFault),
    /// The symmetries that are given can't be taken.
    Symmetries(SymmetriesFault),
    /// A growth of memory was refused.
    Memory,
    /// A thread couldn't be started.
    Worker,
    /// The reader failed.
    Read,
    /// The writer failed.
    Write,
    /// The input is longer than it may be.
    Limit,
}

/// Why symmetries that are given can't be taken.
#[derive(Clone, Copy, Debug, PartialEq, Eq)]
pub enum SymmetriesFault {
    /// Their text has a fault.
    Text(ProofFault),
    /// The map of this number, counted from 1, is no symmetry of the board's domain.
    Map { number: u8, fault: MapFault },
    /// The maps make more symmetries than `MAX_ELEMENTS`.
    TooMany,
}

impl From<Memory> for RunFault {
    ghost from_gives = { λ _ told. told ≡ faults.Memory };

    fn from(_fault: Memory) -> RunFault {
        RunFault::Memory
    }
}

impl From<AllocError> for RunFault {
    ghost from_gives = { λ _ told. told ≡ faults.Memory };

    fn from(_fault: AllocError) -> RunFault {
        RunFault::Memory
    }
}

impl From<ReadFault> for RunFault {
    ghost from_gives = { λ fault told. told ≡ fault_of_reading fault };

    fn from(fault: ReadFault) -> RunFault {
        match fault {
            ReadFault::Memory => RunFault::Memory,
            ReadFault::Read => RunFault::Read,
            ReadFault::Limit => RunFault::Limit,
        }
    }
}

impl From<BoardFault> for RunFault {
    ghost from_gives = { IsFaultOfBoard };

    fn from(fault: BoardFault) -> RunFault {
        if fault.kind == BoardKind::Memory {
            RunFault::Memory
        } else {
            RunFault::Board(fault)
        }
    }
}

impl From<ProofFault> for RunFault {
    ghost from_gives = { IsFaultOfProof };

    fn from(fault: ProofFault) -> RunFault {
        if fault.kind == ProofKind::Memory {
            RunFault::Memory
        } else {
            RunFault::Proof(fault)
        }
    }
}

impl From<ChainFault> for RunFault {
    ghost from_gives = { λ fault told. told ≡ fault_of_chains fault };

    fn from(fault: ChainFault) -> RunFault {
        match fault {
            ChainFault::TooMany => RunFault::TooManyChains,
            ChainFault::Memory => RunFault::Memory,
        }
    }
}

impl From<OrbitFault> for RunFault {
    ghost from_gives = { λ fault told. told ≡ fault_of_orbits fault };

    fn from(fault: OrbitFault) -> RunFault {
        match fault {
            OrbitFault::TooManyOrbits => RunFault::TooManyOrbits,
            OrbitFault::Memory => RunFault::Memory,
        }
    }
}

impl From<SolveFault> for RunFault {
    ghost from_gives = { λ fault told. told ≡ fault_of_solving fault };

    fn from(fault: SolveFault) -> RunFault {
        match fault {
            SolveFault::TooLarge => RunFault::TooLarge,
            SolveFault::Memory => RunFault::Memory,
            SolveFault::Worker => RunFault::Worker,
        }
    }
}

impl From<Unmade> for RunFault {
    ghost from_gives = { λ fault told. told ≡ fault_of_making fault };

    fn from(fault: Unmade) -> RunFault {
        match fault {
            Unmade::Memory => RunFault::Memory,
            Unmade::TooLong => RunFault::DocumentTooLarge,
        }
    }
}

impl From<PlayFault> for RunFault {
    ghost from_gives = { λ fault told. told ≡ fault_of_play fault };

    fn from(fault: PlayFault) -> RunFault {
        match fault {
            PlayFault::Read => RunFault::Read,
            PlayFault::Write => RunFault::Write,
            PlayFault::Memory => RunFault::Memory,
            PlayFault::Limit => RunFault::Limit,
        }
    }
}
