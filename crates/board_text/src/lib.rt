//! Boards of the pebble game, their text, and sources and sinks of texts.
#![tactic(auto)]

mod board;
mod building;
mod domination;
mod fault;
mod laws;
pub mod line_reader;
mod memory;
mod pair_fault;
mod parsing;
mod printing;
mod read_write;
mod sink;
mod source;
mod through;
mod writing;

pub use board::{Board, MAX_LABELS, MAX_PEBBLES};
pub use domination::{Domination, ROW_WORDS};
pub use fault::{BoardFault, BoardKind};
pub use laws::{board_or_fault, limits, one_board, one_fault};
pub use memory::Memory;
pub use parsing::parse;
pub use printing::print;
pub use read_write::{ReadFault, read_all, write_all};
pub use sink::Sink;
pub use source::{Failed, Source};
pub use through::Through;
pub use writing::{write_number, write_place, write_places};
