//! Values by orbits, beside those by gaps.

ghost use Rattle.std.specs.Prelude.{◌≡◌, ◌↔◌, ◌≤◌, IfOk, IfSome, IsTrue};
ghost use Rattle.board_text.specs.PlainBoard.{IsConfiguration};
ghost use Rattle.orbits.specs.Orbits.{HasGroupOrNone};
ghost use Rattle.proof_text.specs.Documents.{AreHeldMaps};
ghost use Rattle.symmetries.specs.Groups.{IsEachOnce};

use board_text::{Board, MAX_PEBBLES, Memory, parse};
use console::NoWatch;
use gap_values::{GapValues, OnThisThread, ValueTable, has_few_gaps};
use orbits::OrbitValues;
use positions::Value;
use proof_check::wrong_map;
use proof_text::{Images, parse_symmetries};
use std::alloc::Global;
use std::process::Abort;
use std::thread::Threads;
use symmetries::{Alike, group_of};

/// The residues modulo seven, of which one dominates another if their difference is a square, and
/// three pebbles that hold no label yet.
const RESIDUES: &str = "board 2\nlabels 7\npebbles 3\nstart - - -\n\
    beats 0 3\nbeats 0 5\nbeats 0 6\nbeats 1 0\nbeats 1 4\nbeats 1 6\nbeats 2 0\nbeats 2 1\n\
    beats 2 5\nbeats 3 1\nbeats 3 2\nbeats 3 6\nbeats 4 0\nbeats 4 2\nbeats 4 3\nbeats 5 1\n\
    beats 5 3\nbeats 5 4\nbeats 6 2\nbeats 6 4\nbeats 6 5\nend\n";

/// The residue after each, and the double of each.
const TURNS: &str = "symmetries 2\nmap 1 2 3 4 5 6 0\nmap 0 2 4 6 1 3 5\nend\n";

/// The three-cycle with two pebbles.
const THREE_CYCLE: &str = "board 1\nlabels 3\npebbles 2\nstart 0 0\n\
    beats 0 2\nbeats 1 0\nbeats 2 1\nend\n";

/// The label before each.
const BACK: &str = "symmetries 1\nmap 2 0 1\nend\n";

/// The chain of three, and none of three pebbles that holds a label yet.
const CHAIN_WITHOUT_LABELS: &str = "board 2\nlabels 3\npebbles 3\nstart - - -\n\
    beats 1 0\nbeats 2 0\nbeats 2 1\nend\n";

/// One pebble on one label.
const LONE_LABEL: &str = "board 1\nlabels 1\npebbles 1\nstart 0\nend\n";

/// No symmetries at all.
const NONE: &str = "symmetries 0\nend\n";

/// What is alike by the symmetries that `maps` make.
fn alike_by(alloc: Global, board: &Board, maps: &[Images]) -> Result<Option<Alike>, Memory>
    requires { AreHeldMaps board.now.labels maps.now }
    ensures group { IfOk result (λ found. IfSome found (HasGroupOrNone board.now)) }
    ensures once { IfOk result (λ found. IfSome found IsEachOnce) }
{
    if let Some((_, _)) = wrong_map(board, maps) {
        return Ok(None);
    }
    let made = group_of(alloc, board, maps)?;
    let Some(group) = made else {
        return Ok(None);
    };
    let alike = Alike::by(alloc, board, group)?;
    Ok(Some(alike))
}

/// Whether `held` is a configuration of `board`.
fn is_configuration(board: &Board, held: &[u16]) -> bool
    ensures { IsTrue result ↔ IsConfiguration board.now held.now }
{
    let places = board.places();
    held.len() == usize::from(board.pebbles()) && held.iter().all(|place| *place < places)
}

/// The value of a configuration by orbits, and by gaps.
fn both_values(
    board: &Board,
    values: &OrbitValues<'_>,
    gaps: &GapValues,
    held: &[u16],
) -> Option<(Value, Value)>
    requires by_orbits { values.now.board ≡ board.now }
    requires by_gaps { gaps.now ≡ board.now }
{
    if !is_configuration(board, held) {
        return None;
    }
    Some((values.value(held), gaps.value(held)))
}

/// The values of a board that has few gaps, by these.
fn values_by_gaps(alloc: Global, board: &Board) -> Option<GapValues>
    ensures { IfSome result (λ values. values ≡ board.now) }
{
    if !has_few_gaps(board) {
        return None;
    }
    GapValues::of(alloc, board, &OnThisThread, &NoWatch, &mut ()).ok()
}

/// The best answer on a board of two pebbles while the other one has this place.
fn best_beside(board: &Board, values: &OrbitValues<'_>, place: u16) -> Option<u16>
    requires { values.now.board ≡ board.now }
{
    if board.pebbles() != 2 || place >= board.places() {
        return None;
    }
    let best = values.best_answer(board, &[place])?;
    Some(best.label)
}

/// Asserts that the configurations of a board have the values that they have by gaps.
fn assert_all_values(rt: &impl Abort, alloc: Global, board: &Board, values: &OrbitValues<'_>)
    requires { values.now.board ≡ board.now }
{
    let pebbles = board.pebbles() as usize;
    let last = board.places() - 1;
    let gaps = match values_by_gaps(alloc, board) {
        Some(gaps) => gaps,
        None => panic!(rt; "memory"),
    };
    let mut held = [0u16; MAX_PEBBLES];
    for _ in 0..520u32 {
        match both_values(board, values, &gaps, &held[..pebbles]) {
            Some((found, wanted)) => assert_eq!(rt; found, wanted),
            None => panic!(rt; "no configuration"),
        }
        // The next configuration, and after the last one the first.
        for pebble in 0..pebbles {
            if held[pebble] < last {
                held[pebble] += 1;
                break;
            }
            held[pebble] = 0;
        }
    }
}

/// Asserts that as many configurations have each value as by gaps.
fn assert_all_sizes(rt: &impl Abort, alloc: Global, board: &Board, values: &OrbitValues<'_>)
    requires { IsEachOnce values.now.alike }
{
    let gaps = match values_by_gaps(alloc, board) {
        Some(gaps) => gaps,
        None => panic!(rt; "memory"),
    };
    match (values.sizes(alloc), gaps.sizes(alloc)) {
        (Ok(found), Ok(wanted)) => {
            assert_eq!(rt; found.finite.as_slice(), wanted.finite.as_slice());
            assert_eq!(rt; found.forever, wanted.forever);
        }
        _ => panic!(rt; "memory"),
    }
}

/// What is alike on `board` by the maps whose text this is.
fn alike_of(rt: &impl Abort, alloc: Global, board: &Board, maps: &str) -> Alike
    ensures group { HasGroupOrNone board.now result }
    ensures once { IsEachOnce result }
{
    let maps = parse_symmetries(alloc, board, maps.as_bytes())
        .ok()
        .expect(rt, "maps");
    match alike_by(alloc, board, &maps) {
        Ok(Some(alike)) => alike,
        _ => panic!(rt; "no symmetries"),
    }
}

/// Asserts the values of all configurations of the board whose text this is, found by at most this
/// number of `workers`.
fn assert_board(
    rt: &(impl Abort + Threads + Sync),
    alloc: Global,
    workers: u8,
    text: &str,
    maps: &str,
)
    requires { 1 ≤ workers }
{
    let board = parse(alloc, text.as_bytes()).ok().expect(rt, "a board");
    let alike = alike_of(rt, alloc, &board, maps);
    match OrbitValues::of(rt, alloc, &board, &alike, workers) {
        Ok(values) => {
            assert_all_values(rt, alloc, &board, &values);
            assert_all_sizes(rt, alloc, &board, &values);
        }
        Err(_) => panic!(rt; "memory"),
    }
}

/// Asserts the values of boards of each kind, found by at most this number of `workers`.
fn assert_boards(rt: &(impl Abort + Threads + Sync), alloc: Global, workers: u8)
    requires { 1 ≤ workers }
{
    assert_board(rt, alloc, workers, RESIDUES, TURNS);
    assert_board(rt, alloc, workers, THREE_CYCLE, BACK);
    assert_board(rt, alloc, workers, CHAIN_WITHOUT_LABELS, NONE);
    assert_board(rt, alloc, workers, LONE_LABEL, NONE);
}

#[test]
fn all_values_of_boards(rt: HostRuntime) {
    assert_boards(&rt, rt.alloc(), 1);
}

#[test]
fn by_several_workers(rt: HostRuntime) {
    assert_boards(&rt, rt.alloc(), 3);
}

#[test]
fn without_symmetries(rt: HostRuntime) {
    let alloc = rt.alloc();
    let board = parse(alloc, THREE_CYCLE.as_bytes())
        .ok()
        .expect(&rt, "a board");
    let alike = Alike::by_classes(&board);
    match OrbitValues::of(&rt, alloc, &board, &alike, 1) {
        Ok(values) => {
            assert_all_values(&rt, alloc, &board, &values);
            assert_all_sizes(&rt, alloc, &board, &values);
            assert_eq!(rt; best_beside(&board, &values, 0), Some(1));
        }
        Err(_) => panic!(rt; "memory"),
    }
}
