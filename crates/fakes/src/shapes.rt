//! Boards of a shape, of any size.

use crate::texts::build_board;
use board_text::Board;
use std::alloc::{AllocError, Global};

/// Which labels dominate which.
#[derive(Clone, Copy, PartialEq, Eq)]
pub enum Shape {
    /// None does.
    Empty,
    /// Each dominates all smaller ones.
    Order,
    /// The last dominates all others, and they nothing.
    Star,
}

impl Shape {
    /// Whether the label x dominates the label y, of this number of labels.
    fn beats(self, labels: u16, x: u16, y: u16) -> bool {
        match self {
            Shape::Empty => false,
            Shape::Order => x > y,
            Shape::Star => x == labels.saturating_sub(1) && y < x,
        }
    }
}

/// The board of a shape, with all pebbles on label 0, if the numbers are those of a board. It is
/// made once more if memory was refused.
pub fn shaped(alloc: Global, shape: Shape, labels: u16, pebbles: u8) -> Option<Board> {
    make_shaped(alloc, shape, labels, pebbles)
        .or_else(|_| make_shaped(alloc, shape, labels, pebbles))
        .ok()
        .flatten()
}

fn make_shaped(
    alloc: Global,
    shape: Shape,
    labels: u16,
    pebbles: u8,
) -> Result<Option<Board>, AllocError> {
    let mut pairs = Vec::new(alloc);
    for x in 0..labels.min(256) {
        for y in 0..labels.min(256) {
            if x != y && shape.beats(labels.min(256), x, y) {
                pairs.push((x, y))?;
            }
        }
    }
    let zeros = [0; 6];
    let start = zeros.get(..pebbles as usize).unwrap_or(&zeros);
    Ok(build_board(alloc, labels, pebbles, start, &pairs).ok())
}
