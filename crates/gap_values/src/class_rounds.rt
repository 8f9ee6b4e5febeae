//! The rounds in which gaps close, by the values of classes.

ghost use Rattle.std.specs.Prelude.{◌≡◌, ◌≤◌, ◌*◌, ◌-◌, ◌<◌, IfOk};
ghost use Rattle.board_text.specs.PlainBoard.{IsBoard, places};
ghost use Rattle.classes.specs.Classes.{IsClass};
ghost use Rattle.gap_values.specs.ClassValues.{AreClassValues};
ghost use Rattle.gap_values.specs.Inside.ClassRounds.{IsRoundOf, member_word};
ghost use Rattle.gap_values.specs.Inside.Sets.{AreGapRounds};
ghost use Rattle.gap_values.specs.Inside.Words.{AreRounds};

use crate::closing::{OPEN, answer_set};
use crate::rounds::GapRounds;
use crate::telling::sets_below;
use board_text::{Board, Memory, ROW_WORDS};
use classes::{ClassNumbers, Places};
use positions::{LabelSet, Labels};
use std::alloc::Global;

impl<const WORDS: usize> GapRounds<WORDS> {
    /// The rounds in which the gaps of `board` close, by the words of its classes.
    pub(crate) fn of_classes(
        alloc: Global,
        board: &Board,
        numbers: &ClassNumbers,
        words: &[u32],
    ) -> Result<GapRounds<WORDS>, Memory>
        requires narrow { WORDS ≤ ROW_WORDS }
        requires fits { board.now.labels ≤ 64 * WORDS }
        requires board { numbers.now ≡ board.now }
        requires words { AreClassValues board.now words.now }
        ensures { IfOk result (AreGapRounds board.now) }
    {
        let rounds = rounds_of_classes(alloc, board, numbers, words)?;
        GapRounds::told(alloc, board, numbers, rounds)
    }

    /// The rounds in `words`, with the sets of labels that are told of them.
    fn told(
        alloc: Global,
        board: &Board,
        numbers: &ClassNumbers,
        words: Vec<u32>,
    ) -> Result<GapRounds<WORDS>, Memory>
        requires narrow { WORDS ≤ ROW_WORDS }
        requires fits { board.now.labels ≤ 64 * WORDS }
        requires board { numbers.now ≡ board.now }
        requires words { AreRounds board.now words.items }
        ensures { IfOk result (AreGapRounds board.now) }
    {
        if board.pebbles() == 1 {
            return Ok(GapRounds {
                words,
                first: Vec::new(alloc),
                closed: Vec::new(alloc),
            });
        }
        let first = sets_below(alloc, board, numbers, &words, 1)?;
        let closed = sets_below(alloc, board, numbers, &words, OPEN)?;
        Ok(GapRounds {
            words,
            first,
            closed,
        })
    }
}

/// The words of the gaps of `board`, by those of its classes.
fn rounds_of_classes(
    alloc: Global,
    board: &Board,
    numbers: &ClassNumbers,
    words: &[u32],
) -> Result<Vec<u32>, Memory>
    requires board { numbers.now ≡ board.now }
    requires words { AreClassValues board.now words.now }
    ensures { IfOk result (λ rounds. AreRounds board.now rounds.items) }
{
    let mut rounds = vec![in alloc; OPEN; numbers.gaps() as usize]?;
    let mut walk = numbers.families(board.pebbles() - 1);
    for number in 0..numbers.gaps() {
        let gap = &walk.places[..walk.count as usize];
        rounds[number as usize] = round_of_gap(board, numbers, words, gap);
        numbers.next_family(&mut walk, number);
    }
    Ok(rounds)
}

/// The word of `gap`: one more than the greatest value of a result of its answers.
fn round_of_gap(board: &Board, numbers: &ClassNumbers, words: &[u32], gap: &[u16]) -> u32
    requires board { numbers.now ≡ board.now }
    requires words { AreClassValues board.now words.now }
    requires is_gap { IsClass (places board.now) (board.now.pebbles - 1) gap.now }
    ensures { IsRoundOf board.now words.now gap.now result }
{
    let answers = answer_set(board, LabelSet::below(board.labels()), gap);
    let mut labels = answers.walk();
    let mut round = 0;
    while let Some(label) = labels.take_next() {
        let word = word_of_result(board, numbers, words, gap, label);
        if word == OPEN {
            return OPEN;
        }
        if word >= round {
            round = word + 1;
        }
    }
    round
}

/// The word of the result of `label` in `gap`.
fn word_of_result(
    board: &Board,
    numbers: &ClassNumbers,
    words: &[u32],
    gap: &[u16],
    label: u16,
) -> u32
    requires is_board { IsBoard board.now }
    requires board { numbers.now ≡ board.now }
    requires words { AreClassValues board.now words.now }
    requires is_gap { IsClass (places board.now) (board.now.pebbles - 1) gap.now }
    requires label { label < board.now.labels }
    ensures { result ≡ member_word words.now gap.now label }
{
    let mut class = Places::arranged(gap);
    class.arrange(label);
    words[numbers.number(class.as_slice()) as usize]
}
