//! Replies on nested boards, and games that are answered without a search.

ghost use Rattle.std.specs.Prelude.{◌≡◌, ◌<◌, ◌↔◌, All, IfOk, IsTrue, replicate};
ghost use Rattle.board_text.specs.Ranges.{InRange};
ghost use Rattle.nested_cycles.specs.Domination.{labels_of};
ghost use Rattle.nested_cycles.specs.NestedGame.{plain_game};

use crate::assertions::assert_same;
use board_text::{Board, Memory};
use fakes::make_nested;
use nested_cycles::{NestedGame, nested_beats, nested_good, nested_reply};
use positions::Value;
use solved_boards::values_of;
use solver::Values;
use std::alloc::Global;
use std::process::Abort;

/// Whether the words are labels of the board of the third level.
fn are_labels(words: &[u64]) -> bool
    ensures { IsTrue result ↔ All (λ word. word < labels_of 3) words.now }
{
    words.iter().all(|word| *word < 9)
}

/// Whether at most three words are good at the third level, if they are labels.
fn are_good(words: &[u64]) -> Option<bool> {
    if words.len() > 3 || !are_labels(words) {
        return None;
    }
    Some(nested_good(3, words))
}

/// The reply at the third level, if the others are good.
fn reply_to(others: &[u64]) -> Option<u64> {
    if others.len() > 2 || !are_labels(others) || !nested_good(3, others) {
        return None;
    }
    Some(nested_reply(3, others))
}

/// Other words, and the reply to them.
const REPLIES: [(&[u64], u64); 4] = [(&[], 0), (&[0, 1], 3), (&[0, 3], 4), (&[6, 0], 1)];

#[test]
fn replies_at_the_third_level(rt: HostRuntime) {
    for (others, wanted) in REPLIES {
        assert_same(&rt, wanted, reply_to(others), Some(wanted));
    }
}

#[test]
fn good_words_at_the_third_level(rt: HostRuntime) {
    assert_same(&rt, "two copies", are_good(&[0, 3]), Some(true));
    assert_same(&rt, "three copies", are_good(&[0, 3, 6]), Some(false));
}

/// The answer of `NestedGame::new`, which is asked once more if it was refused memory.
fn make_game(alloc: Global, levels: u8) -> Result<NestedGame, Memory>
    requires { InRange 1 24 levels }
    ensures { IfOk result (λ game. game ≡ plain_game levels (replicate levels 0)) }
{
    match NestedGame::new(alloc, levels) {
        Err(Memory) => NestedGame::new(alloc, levels),
        answer => answer,
    }
}

/// The game of a level.
fn game_of(rt: &impl Abort, alloc: Global, levels: u8) -> NestedGame
    requires { InRange 1 24 levels }
    ensures { result ≡ plain_game levels (replicate levels 0) }
{
    make_game(alloc, levels).expect(rt, "a nested game")
}

/// Asserts the reply to a request.
fn assert_request(rt: &impl Abort, game: &mut NestedGame, pebble: u8, wanted: u64)
    requires { pebble < game.old.levels }
    ensures { game.new.levels ≡ game.old.levels }
{
    assert_same(rt, pebble, game.request(pebble), wanted);
}

#[test]
fn a_game_of_three_levels(rt: HostRuntime) {
    let mut game = game_of(&rt, rt.alloc(), 3);
    assert_request(&rt, &mut game, 0, 3);
    assert_request(&rt, &mut game, 1, 4);
    assert_request(&rt, &mut game, 2, 6);
    assert_request(&rt, &mut game, 0, 7);
    assert_eq!(rt; game.words(), [7, 4, 6].as_slice());
}

#[test]
fn games_of_the_highest_and_the_lowest_level(rt: HostRuntime) {
    assert_request(&rt, &mut game_of(&rt, rt.alloc(), 24), 0, 31_381_059_609);
    assert_request(&rt, &mut game_of(&rt, rt.alloc(), 1), 0, 0);
}

/// Asserts that four requests are answered by labels that are legal on the board, and that lead to
/// configurations from which a labeller lasts for ever.
///
/// The pebbles that are asked for are the digits of `requests`, the last one first. Their base is
/// the number of levels.
fn assert_lasting(
    rt: &impl Abort,
    game: &mut NestedGame,
    board: &Board,
    values: &Values,
    mut requests: u32,
)
    requires { values.now ≡ board.now }
{
    let levels = u32::from(game.levels());
    let space = values.space();
    let mut rank = space.rank(board.start());
    for _ in 0..4 {
        let pebble = (requests % levels) as u8;
        let label = u16::try_from(game.request(pebble))
            .ok()
            .expect(rt, "a label");
        assert!(rt;
            pebble < space.pebbles() && space.legal(board, rank, pebble, label),
            "pebble {pebble} to {label} at {rank}"
        );
        rank = space.with(rank, pebble, label);
        assert_same(rt, rank, values.of(rank), Value::Forever);
        requests /= levels;
    }
}

#[test]
fn replies_keep_the_value(rt: HostRuntime) {
    for levels in 2..5 {
        let board = make_nested(rt.alloc(), levels, levels).expect(&rt, "a nested board");
        let values = values_of(rt.alloc(), &board).expect(&rt, "values");
        for requests in 0..256 {
            let mut game = game_of(&rt, rt.alloc(), levels);
            assert_lasting(&rt, &mut game, &board, &values, requests);
        }
    }
}

/// The number of labels of the nested board of the highest level: 3^23.
const MOST_LABELS: u64 = 94_143_178_827;

/// Whether a label of the highest level dominates another one.
fn dominates(label: u64, other: u64) -> bool {
    label < MOST_LABELS && other < MOST_LABELS && nested_beats(24, label, other)
}

#[test]
fn ten_thousand_requests_at_the_highest_level(rt: HostRuntime) {
    let mut game = game_of(&rt, rt.alloc(), 24);
    let mut drawn = 1_u64;
    for _ in 0..10_000 {
        drawn = drawn
            .wrapping_mul(6_364_136_223_846_793_005)
            .wrapping_add(1_442_695_040_888_963_407);
        let pebble = ((drawn >> 33) % 24) as u8;
        let reply = game.request(pebble);
        for (other, word) in game.words().iter().enumerate() {
            assert!(rt;
                other == usize::from(pebble) || dominates(reply, *word),
                "{reply} over {word}"
            );
        }
    }
}
