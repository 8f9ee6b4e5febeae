//! Boards that are drawn, from one configuration to five thousand.

ghost use Rattle.std.specs.Prelude.{◌<◌};
ghost use Rattle.board_text.specs.Ranges.{InRange};

use board_text::Board;
use fakes::{Draws, build_board};
use std::alloc::{AllocError, Global};

/// The board that is drawn with this seed, which is drawn once more if memory was refused. Every
/// other board, more or less, has a pebble that holds no label.
pub fn drawn_board(alloc: Global, seed: u64) -> Option<Board> {
    draw_board(alloc, seed)
        .or_else(|_| draw_board(alloc, seed))
        .ok()
        .flatten()
}

fn draw_board(alloc: Global, seed: u64) -> Result<Option<Board>, AllocError> {
    let mut draws = Draws::after(seed);
    let pebbles = draw_pebbles(&mut draws);
    let most = draw(&mut draws, most_labels(pebbles));
    let labels = 1 + draw(&mut draws, 1 + most);
    let start = draw_start(&mut draws, labels, pebbles);
    let pairs = draw_pairs(alloc, &mut draws, labels)?;
    let start = start.get(..usize::from(pebbles)).unwrap_or(&start);
    Ok(build_board(alloc, labels, pebbles as u8, start, &pairs).ok())
}

/// A number below the bound.
fn draw(draws: &mut Draws, bound: u16) -> u16
    requires { 0 < bound }
    ensures { result < bound }
{
    draws.below(u32::from(bound)) as u16
}

/// The number of pebbles, most often two, which last for ever on most boards with a cycle.
fn draw_pebbles(draws: &mut Draws) -> u16
    ensures { InRange 1 6 result }
{
    match draw(draws, 10) {
        0 => 1,
        1..=4 => 2,
        5..=6 => 3,
        7 => 4,
        8 => 5,
        _ => 6,
    }
}

/// With no more labels a board of these pebbles has at most 5,041 configurations.
fn most_labels(pebbles: u16) -> u16
    ensures { InRange 1 70 result }
{
    match pebbles {
        0..=2 => 70,
        3 => 16,
        4 => 7,
        5 => 4,
        _ => 3,
    }
}

/// A place for each pebble. By the toss of a coin at least one holds no label.
fn draw_start(draws: &mut Draws, labels: u16, pebbles: u16) -> [u16; 6]
    requires labels { InRange 1 70 labels }
    requires pebbles { InRange 1 6 pebbles }
{
    let is_blank = draw(draws, 2);
    let mut start = [0; 6];
    for pebble in 0..6 {
        start[pebble] = draw(draws, labels + is_blank);
    }
    if is_blank == 1 {
        start[draw(draws, pebbles) as usize] = labels;
    }
    start
}

/// Pairs in ascending order, of two labels one at most. Of sixteen chances some are for the greater
/// label to dominate the smaller one, some of the others for the smaller one.
fn draw_pairs(
    alloc: Global,
    draws: &mut Draws,
    labels: u16,
) -> Result<Vec<(u16, u16)>, AllocError> {
    let for_greater = draw(draws, 17);
    let for_smaller = draw(draws, 17 - for_greater);
    let mut pairs = Vec::new(alloc);
    for x in 0..labels {
        for y in 0..x {
            let chance = draw(draws, 16);
            if chance < for_greater {
                pairs.push((x, y))?;
            } else if chance < for_greater + for_smaller {
                pairs.push((y, x))?;
            }
        }
    }
    pairs.sort()?;
    Ok(pairs)
}
