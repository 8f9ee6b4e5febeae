//! Laws of starts: from which of them a domain lasts for ever, how long from the others, and how
//! many labels that takes. Each is the contract of a function without a body.

ghost use Rattle.std.specs.Prelude.{◌≡◌, ◌↔◌, ◌+◌, ◌^◌, ◌<◌, ◌≤◌, ℕ, suc};
ghost use Rattle.std.specs.Prelude.{All, Contains, List, length, slice_index, replicate};
ghost use Rattle.board_text.specs.PlainBoard.{PlainBoard, ArePairs, IsAntisymmetric};
ghost use Rattle.positions.specs.Game.{LabellerTree};
ghost use Rattle.positions.specs.Value.{HasValue, HasValueAtMost};
ghost use Rattle.positions.specs.declared.value.Value.TheVariants.{Finite, Forever};
ghost use Rattle.domains.specs.Cycles.{HaveDominators};
ghost use Rattle.domains.specs.Dominated.{AreDominated, IsHeld};
ghost use Rattle.domains.specs.Orders.{HasHeights, IsChain};
ghost use Rattle.domains.specs.ValueOrder.{IsWorthAtMost};

/// Every start lasts for ever exactly if each list of one label fewer than there are pebbles is
/// dominated by a label; one request answered from every start is enough to see it.
pub fn dominated_boards_last()
    ensures last { (board : PlainBoard) → (count : ℕ) → (configuration : List ℕ)
        → board.pebbles ≡ suc count → AreDominated board count → IsHeld board configuration
        → HasValue board configuration Forever }
    ensures dominated { (board : PlainBoard) → (count : ℕ) → board.pebbles ≡ suc count
        → 0 < board.labels
        → ((configuration : List ℕ) → IsHeld board configuration
        → LabellerTree board 1 configuration)
        → AreDominated board count }
{}

/// No order carries two processes for ever. On a board whose labels have heights, so that a label
/// is higher than those that it beats, a value is at most the number of heights, also if no label
/// is held; and no more requests are answered than there are heights above a label that is held.
#[tactic(auto, using(crate::proofs::LemmasOfLaws::orders_end_lemmas))]
pub fn orders_end()
    ensures end { (board : PlainBoard) → (height : ℕ → ℕ) → (count : ℕ) → (depth : ℕ)
        → (configuration : List ℕ) → (pebble : ℕ) → HasHeights board height count
        → 2 ≤ board.pebbles → length configuration ≡ board.pebbles → pebble < board.pebbles
        → slice_index configuration pebble < board.labels → LabellerTree board depth configuration
        → depth + height (slice_index configuration pebble) < count }
    ensures at_most { (board : PlainBoard) → (height : ℕ → ℕ) → (count : ℕ)
        → (configuration : List ℕ) → HasHeights board height count → 2 ≤ board.pebbles
        → length configuration ≡ board.pebbles → HasValueAtMost board configuration count }
    ensures never { (board : PlainBoard) → (height : ℕ → ℕ) → (count : ℕ)
        → (configuration : List ℕ) → HasHeights board height count → 2 ≤ board.pebbles
        → length configuration ≡ board.pebbles → HasValue board configuration Forever → ⊥ }
{}

/// The chain of n labels has the value n - 1 from all pebbles on the lowest, with two or more.
pub fn chains_have_their_value()
    ensures { (board : PlainBoard) → (more : ℕ) → IsChain board → board.labels ≡ suc more
        → 2 ≤ board.pebbles → HasValue board (replicate board.pebbles 0) (Finite more) }
{}

/// Two pebbles last for ever from some start exactly if domination has a cycle: from each start
/// on labels of which each is beaten by one of them. If they last as many requests as there are
/// labels, and the second pebble holds a label, there are such labels.
pub fn two_pebbles_last_on_cycles()
    ensures last { (board : PlainBoard) → (labels : List ℕ) → (configuration : List ℕ)
        → HaveDominators board labels → board.pebbles ≡ 2 → length configuration ≡ 2
        → All (Contains labels) configuration → HasValue board configuration Forever }
    ensures only { (board : PlainBoard) → (configuration : List ℕ) → board.pebbles ≡ 2
        → length configuration ≡ 2 → slice_index configuration 1 < board.labels
        → LabellerTree board board.labels configuration
        → (labels : List ℕ) × (0 < length labels) × HaveDominators board labels }
    ensures exactly { (board : PlainBoard) → board.pebbles ≡ 2
        → ((configuration : List ℕ) × IsHeld board configuration
        × HasValue board configuration Forever)
        ↔ ((labels : List ℕ) × (0 < length labels) × HaveDominators board labels) }
{}

/// Many processes need many labels: a board on which n processes last for ever from some start has
/// 2^n - 1 labels or more, and with fewer each start ends. For two and three processes there are
/// boards with no more.
#[tactic(auto, using(crate::proofs::LemmasOfLaws::processes_need_labels_lemmas))]
pub fn processes_need_labels()
    ensures labels { (board : PlainBoard) → (configuration : List ℕ) → IsAntisymmetric board
        → length configuration ≡ board.pebbles → HasValue board configuration Forever
        → 2 ^ board.pebbles ≤ suc board.labels }
    ensures fewer { (board : PlainBoard) → (configuration : List ℕ) → IsAntisymmetric board
        → length configuration ≡ board.pebbles → suc board.labels < 2 ^ board.pebbles
        → (number : ℕ) × HasValue board configuration (Finite number) }
    ensures two { (board : PlainBoard) × (board.labels ≡ 3) × (board.pebbles ≡ 2)
        × ArePairs board.labels board.pairs
        × HasValue board (replicate board.pebbles 0) Forever }
    ensures three { (board : PlainBoard) × (board.labels ≡ 7) × (board.pebbles ≡ 3)
        × ArePairs board.labels board.pairs
        × HasValue board (replicate board.pebbles 0) Forever }
{}

/// The best start is all processes on one label: no configuration in which some process holds the
/// label lasts longer. So a board carries its processes for ever from some start exactly if it does
/// from all on one label. From no labels the first answer is free, and no more is won: one request
/// more is answered than from the best of the starts with all on one label.
pub fn one_label_is_the_best_start()
    ensures best { (board : PlainBoard) → (configuration : List ℕ) → (pebble : ℕ)
        → length configuration ≡ board.pebbles → pebble < board.pebbles
        → IsWorthAtMost board configuration
        board (replicate board.pebbles (slice_index configuration pebble)) }
    ensures for_ever { (board : PlainBoard) → 0 < board.pebbles
        → ((configuration : List ℕ) × (length configuration ≡ board.pebbles)
        × HasValue board configuration Forever)
        ↔ ((label : ℕ) × (label < board.labels)
        × HasValue board (replicate board.pebbles label) Forever) }
    ensures trees_from_none { (board : PlainBoard) → 0 < board.pebbles → (depth : ℕ)
        → LabellerTree board (suc depth) (replicate board.pebbles board.labels)
        ↔ ((label : ℕ) × (label < board.labels)
        × LabellerTree board depth (replicate board.pebbles label)) }
    ensures value_from_none { (board : PlainBoard) → (number : ℕ)
        → HasValue board (replicate board.pebbles board.labels) (Finite (suc number))
        ↔ (((label : ℕ) × (label < board.labels)
        × HasValue board (replicate board.pebbles label) (Finite number))
        × ((label : ℕ) → label < board.labels
        → HasValueAtMost board (replicate board.pebbles label) number)) }
{}
