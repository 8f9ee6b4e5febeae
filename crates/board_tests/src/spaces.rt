//! Ranks and gaps of boards, and their answers by the slow program.

ghost use Rattle.std.specs.Prelude.{◌≡◌, ◌↔◌, IsTrue};
ghost use Rattle.board_text.specs.PlainBoard.{IsConfiguration};

use crate::assertions::{assert_same, board_of};
use board_text::Board;
use fakes::boards::{
    CHAIN_OF_THREE, CYCLE_WITH_A_WAY_IN, CYCLE_WITHOUT_LABELS, LONE_LABEL, LONE_WITHOUT_LABEL,
    NO_PAIRS, ONE_PAIR, PAIR_WITHOUT_LABELS, SHARED_LABEL, THREE_CYCLE, THREE_PEBBLES,
};
use fakes::build_board;
use positions::{Space, TooLarge, is_legal, legal_labels};
use std::alloc::Global;
use std::process::Abort;

/// The number of configurations of the board, if a space is made for it.
fn count_configurations(board: &Board) -> Result<u32, TooLarge> {
    let space = Space::of(board)?;
    Ok(space.configurations())
}

/// Whether the list has a place for each pebble.
fn is_configuration(space: &Space, configuration: &[u16]) -> bool
    ensures { IsTrue result ↔ IsConfiguration space.now configuration.now }
{
    let places = space.places();
    configuration.len() == usize::from(space.pebbles())
        && configuration.iter().all(|place| *place < places)
}

/// The rank of a list of labels, if it is a configuration.
fn rank_of(space: &Space, configuration: &[u16]) -> Option<u32> {
    if !is_configuration(space, configuration) {
        return None;
    }
    Some(space.rank(configuration))
}

/// Writes the labels at a rank to the first places of a list.
fn write_labels(space: &Space, rank: u32, labels: &mut [u16; 6]) {
    if rank < space.configurations() {
        for pebble in 0..space.pebbles() {
            labels[pebble as usize] = space.label_at(rank, pebble);
        }
    }
}

/// Whether each rank is that of the labels at it.
fn ranks_lead_back(space: &Space) -> bool {
    for rank in 0..space.configurations() {
        let mut labels = [0; 6];
        write_labels(space, rank, &mut labels);
        let configuration = &labels[..space.pebbles() as usize];
        if rank_of(space, configuration) != Some(rank) {
            return false;
        }
    }
    true
}

/// Whether the space, the set of legal labels and the slow program agree about each answer to each
/// request.
fn legal_by_definition(board: &Board, space: &Space) -> bool
    requires same_board { space.now ≡ board.now }
{
    for rank in 0..space.configurations() {
        let mut labels = [0; 6];
        write_labels(space, rank, &mut labels);
        let configuration = &labels[..space.pebbles() as usize];
        if !is_configuration(space, configuration) {
            return false;
        }
        for pebble in 0..space.pebbles() {
            let set = legal_labels(board, configuration, pebble);
            for label in 0..space.labels() {
                let legal = is_legal(board, configuration, pebble, label);
                if space.legal(board, rank, pebble, label) != legal
                    || set.contains(label) != legal
                {
                    return false;
                }
            }
        }
    }
    true
}

/// The number of a pebble's legal labels and the smallest of them, by the slow program.
fn count_legal(board: &Board, space: &Space, rank: u32, pebble: u8) -> (u32, Option<u16>)
    requires same_board { space.now ≡ board.now }
{
    let mut labels = [0; 6];
    write_labels(space, rank, &mut labels);
    let configuration = &labels[..space.pebbles() as usize];
    let mut count: u32 = 0;
    let mut smallest = None;
    if is_configuration(space, configuration) && pebble < space.pebbles() {
        for label in 0..space.labels() {
            if is_legal(board, configuration, pebble, label) {
                smallest = smallest.or(Some(label));
                count = count.saturating_add(1);
            }
        }
    }
    (count, smallest)
}

/// Whether the space and the slow program agree about the answers of each gap.
fn answers_by_definition(board: &Board, space: &Space) -> bool
    requires same_board { space.now ≡ board.now }
{
    for rank in 0..space.configurations() {
        for pebble in 0..space.pebbles() {
            let gap = space.gap(rank, pebble);
            let answers = (
                space.count_answers(board, gap),
                space.next_answer(board, gap, 0),
            );
            if answers != count_legal(board, space, rank, pebble) {
                return false;
            }
        }
    }
    true
}

#[test]
fn ranks_of_a_chain(rt: HostRuntime) {
    let board = board_of(&rt, rt.alloc(), CHAIN_OF_THREE);
    let space = Space::of(&board).expect(&rt, "a small board");
    assert_eq!(rt;
        (space.configurations(), space.pebbles(), space.labels()),
        (9, 2, 3)
    );
    assert_same(&rt, "rank", rank_of(&space, &[1, 2]), Some(5));
    assert_same(&rt, "another label", space.with(5, 0, 2), 8);
    assert_same(&rt, "dominator of 5", space.dominator(&board, 5), Some(1));
    assert_same(&rt, "dominator of 8", space.dominator(&board, 8), None);
}

#[test]
fn gaps_of_a_chain(rt: HostRuntime) {
    let board = board_of(&rt, rt.alloc(), CHAIN_OF_THREE);
    let space = Space::of(&board).expect(&rt, "a small board");
    assert_eq!(rt;
        (space.configurations(), space.pebbles(), space.gaps()),
        (9, 2, 6)
    );
    assert_same(&rt, "gaps", [space.gap(5, 0), space.gap(5, 1)], [2, 4]);
    assert_same(
        &rt,
        "pebbles",
        [space.gap_pebble(2), space.gap_pebble(4)],
        [0, 1],
    );
}

#[test]
fn answers_of_a_chain(rt: HostRuntime) {
    let board = board_of(&rt, rt.alloc(), CHAIN_OF_THREE);
    let space = Space::of(&board).expect(&rt, "a small board");
    assert_eq!(rt; (space.gaps(), space.labels()), (6, 3));
    let answers = (
        space.member(4, 0),
        space.count_answers(&board, 4),
        space.next_answer(&board, 4, 0),
    );
    assert_same(&rt, "gap 4", answers, (3, 1, Some(2)));
    let set = space.answers(&board, 4);
    let among = [set.contains(0), set.contains(1), set.contains(2)];
    assert_same(&rt, "labels 0 to 2", among, [false, false, true]);
}

#[test]
fn sizes(rt: HostRuntime) {
    let board = board_of(&rt, rt.alloc(), NO_PAIRS);
    assert_same(&rt, 32, count_configurations(&board), Ok(1_048_576));
    let board = build_board(rt.alloc(), 33, 4, &[0, 0, 0, 0], &[]).expect(&rt, "parts of a board");
    assert_same(&rt, 33, count_configurations(&board), Err(TooLarge));
    let board = build_board(rt.alloc(), 31, 4, &[31, 31, 31, 31], &[]).expect(
        &rt,
        "parts of a board",
    );
    assert_same(
        &rt,
        "31 and none",
        count_configurations(&board),
        Ok(1_048_576),
    );
    let board = build_board(rt.alloc(), 32, 4, &[0, 0, 0, 32], &[]).expect(&rt, "parts of a board");
    assert_same(
        &rt,
        "32 and none",
        count_configurations(&board),
        Err(TooLarge),
    );
}

#[test]
fn a_pebble_without_a_label(rt: HostRuntime) {
    let board = board_of(&rt, rt.alloc(), LONE_WITHOUT_LABEL);
    let space = Space::of(&board).expect(&rt, "a small board");
    assert_eq!(rt; (space.configurations(), space.pebbles()), (2, 1));
    assert_same(&rt, "places", (space.places(), space.blank()), (2, Some(1)));
    assert_same(&rt, "with its label", space.dominator(&board, 0), Some(0));
    assert_same(&rt, "without one", space.dominator(&board, 1), None);
    let board = board_of(&rt, rt.alloc(), LONE_LABEL);
    let space = Space::of(&board).expect(&rt, "a small board");
    assert_same(
        &rt,
        "labels alone",
        (space.places(), space.blank()),
        (1, None),
    );
}

/// Asserts that the space of a board and the slow program agree about answers.
fn assert_answers(rt: &impl Abort, alloc: Global, text: &str) {
    let board = board_of(rt, alloc, text);
    let space = Space::of(&board).expect(rt, "a small board");
    assert_same(
        rt,
        ("legal", text),
        legal_by_definition(&board, &space),
        true,
    );
    assert_same(
        rt,
        ("answers", text),
        answers_by_definition(&board, &space),
        true,
    );
}

#[test]
fn legal_answers(rt: HostRuntime) {
    for text in [
        THREE_CYCLE,
        ONE_PAIR,
        CHAIN_OF_THREE,
        LONE_LABEL,
        SHARED_LABEL,
        CYCLE_WITH_A_WAY_IN,
        THREE_PEBBLES,
        PAIR_WITHOUT_LABELS,
        CYCLE_WITHOUT_LABELS,
        LONE_WITHOUT_LABEL,
    ] {
        assert_answers(&rt, rt.alloc(), text);
    }
}

#[test]
fn most_labels_and_most_pebbles(rt: HostRuntime) {
    for (labels, pebbles, start, configurations) in [
        (256, 1, [0].as_slice(), 256),
        (3, 6, &[0, 0, 0, 0, 0, 0], 729),
        (256, 1, &[256], 257),
        (2, 6, &[0, 2, 0, 0, 0, 0], 729),
    ] {
        let board = build_board(rt.alloc(), labels, pebbles, start, &[]).expect(
            &rt,
            "parts of a board",
        );
        let space = Space::of(&board).expect(&rt, "a small board");
        assert_same(&rt, labels, space.configurations(), configurations);
        assert_same(&rt, labels, ranks_lead_back(&space), true);
    }
}
