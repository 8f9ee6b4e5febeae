//! Laws of chains: the labels of a play, newest first, and from which of them a domain lasts for
//! ever. Each is the contract of a function without a body.

ghost use Rattle.std.specs.Prelude.{◌≡◌, ◌≢◌, ◌↔◌, ◌+◌, ◌^◌, ◌<◌, ◌≤◌, ℕ, suc, List, [], ◌∷◌, ◌++◌};
ghost use Rattle.std.specs.Prelude.{length, map, replicate, slice_index, All, AllPairs, Contains};
ghost use Rattle.board_text.specs.PlainBoard.{PlainBoard, Dominates, DominatesPlace};
ghost use Rattle.board_text.specs.PlainBoard.{IsAntisymmetric};
ghost use Rattle.player.specs.NestedPlay.{IsNestedPlay};
ghost use Rattle.positions.specs.Game.{Legal, moved};
ghost use Rattle.positions.specs.Value.{HasValue};
ghost use Rattle.positions.specs.declared.value.Value.TheVariants.{Forever};
ghost use Rattle.chains.specs.Chains.{AreChained, AreChainsDominated};
ghost use Rattle.domains.specs.Families.{IsClosedFamily, IsCovered};
ghost use Rattle.domains.specs.Circles.{IsCircle};
ghost use Rattle.domains.specs.Dominated.{AreDominated};
ghost use Rattle.domains.specs.DoubleCovers.{IsDoubleCover};
ghost use Rattle.domains.specs.Plays.{HaveLed, last_asked};
ghost use Rattle.domains.specs.Products.{IsProduct};
ghost use Rattle.domains.specs.Used.{AreAbove, IsUsed, KeepsAbove};

use crate::laws_of_values::Property;

/// A pebble that was asked dominates each other one that wasn't asked since. So once all pebbles
/// were asked, their labels are a chain: in the order of the last requests, the newest first, each
/// label dominates all after it.
pub fn asked_labels_are_chains()
    ensures later { (board : PlainBoard) → (start : List ℕ) → (newer : List ℕ) → (older : List ℕ)
        → (configuration : List ℕ) → (pebble : ℕ) → (other : ℕ)
        → length start ≡ board.pebbles
        → HaveLed board start (newer ++ pebble ∷ older) configuration
        → (Contains newer other → ⊥) → other < board.pebbles → other ≢ pebble
        → DominatesPlace board (slice_index configuration pebble)
        (slice_index configuration other) }
    ensures chain { (board : PlainBoard) → (start : List ℕ) → (requests : List ℕ)
        → (configuration : List ℕ) → length start ≡ board.pebbles
        → HaveLed board start requests configuration
        → AreChained board
        (map (λ pebble. slice_index configuration pebble) (last_asked requests)) }
    ensures once { (requests : List ℕ)
        → AllPairs (λ pebble other. pebble ≢ other) (last_asked requests) }
    ensures all { (requests : List ℕ) → (pebble : ℕ)
        → Contains requests pebble ↔ Contains (last_asked requests) pebble }
{}

/// A closed family of lists of labels (`IsClosedFamily`), with one label fewer than there are
/// pebbles, lasts for ever: from each configuration whose labels, whichever pebble is left out, are
/// all in one list of the family.
pub fn closed_families_last<Family: Property>()
    ensures { (board : PlainBoard) → (count : ℕ) → (configuration : List ℕ)
        → board.pebbles ≡ suc count → IsClosedFamily board count (Family.holds board)
        → IsCovered board (Family.holds board) configuration
        → HasValue board configuration Forever }
{}

/// A domain lasts for ever from some start exactly if it has a closed family of chains that isn't
/// empty, and with two or more pebbles from all on one label exactly if some chain of a closed
/// family of chains has the label.
pub fn chains_decide_what_lasts()
    ensures exactly { (board : PlainBoard) → (count : ℕ) → board.pebbles ≡ suc count
        → ((configuration : List ℕ) × (length configuration ≡ board.pebbles)
        × HasValue board configuration Forever)
        ↔ ((family : List (List ℕ)) × (0 < length family) × All (AreChained board) family
        × IsClosedFamily board count (Contains family)) }
    ensures used { (board : PlainBoard) → (count : ℕ) → (label : ℕ)
        → board.pebbles ≡ suc (suc count) → IsUsed board label
        ↔ ((family : List (List ℕ)) × All (AreChained board) family
        × IsClosedFamily board (suc count) (Contains family)
        × (chain : List ℕ) × Contains family chain × Contains chain label) }
{}

/// Above a label from which n processes last for ever, with two or more, one fewer do: the labels
/// that dominate it carry them, by themselves and with other names.
pub fn dominators_carry_one_fewer()
    ensures { (board : PlainBoard) → (part : PlainBoard) → (image : ℕ → ℕ) → (label : ℕ)
        → (count : ℕ) → board.pebbles ≡ suc (suc count) → KeepsAbove board part label image
        → IsUsed board label
        → (other : ℕ) × (other < board.labels) × Dominates board other label
        × IsUsed part (image other) }
{}

/// If each chain of fewer labels than there are processes is dominated by one label, the domain
/// lasts for ever from all processes on one label, whichever, or on none, and from each
/// configuration whose labels, whichever process is left out, are all in one such chain. Each label
/// that dominates the others' labels is then a right answer: after it the labels are in such chains
/// again. Where each list of one label fewer than there are processes is dominated, each such chain
/// is. And so many processes need 2 to their number labels, less one.
pub fn dominated_chains_last()
    ensures on_one_label { (board : PlainBoard) → (count : ℕ) → (label : ℕ)
        → AreChainsDominated board count → board.pebbles ≡ suc count
        → HasValue board (replicate board.pebbles label) Forever }
    ensures on_chains { (board : PlainBoard) → (count : ℕ) → (configuration : List ℕ)
        → board.pebbles ≡ suc count → AreChainsDominated board count
        → IsCovered board (λ chain. (length chain ≤ count) × AreChained board chain) configuration
        → HasValue board configuration Forever }
    ensures any_answer { (board : PlainBoard) → (count : ℕ) → (configuration : List ℕ)
        → (pebble : ℕ) → (label : ℕ)
        → board.pebbles ≡ suc count → AreChainsDominated board count
        → IsCovered board (λ chain. (length chain ≤ count) × AreChained board chain) configuration
        → pebble < board.pebbles → Legal board configuration pebble label
        → IsCovered board (λ chain. (length chain ≤ count) × AreChained board chain)
        (moved configuration pebble label) }
    ensures of_lists { (board : PlainBoard) → (count : ℕ) → 0 < board.labels
        → AreDominated board count → AreChainsDominated board count }
    ensures labels { (board : PlainBoard) → (count : ℕ) → IsAntisymmetric board
        → AreChainsDominated board count → 2 ^ suc count ≤ suc board.labels }
{}

/// If above each label the labels that dominate it have each chain of k labels dominated, by
/// themselves and with other names, the domain has each chain of k + 1 dominated. Above each label
/// of the double cover of the squares modulo 7, 19 or 47 are the squares with other names: so on 16
/// labels each chain of up to three labels is dominated, on 40 of up to four, and on 96 of up to
/// five.
pub fn chains_above_labels()
    ensures one_more { (board : PlainBoard) → (count : ℕ) → 0 < board.labels
        → ((label : ℕ) → label < board.labels
        → (part : PlainBoard) × (to : ℕ → ℕ) × (back : ℕ → ℕ) × AreAbove board part label to back
        × AreChainsDominated part count)
        → AreChainsDominated board (suc count) }
    ensures above_sixteen { (board : PlainBoard) → (part : PlainBoard) → (label : ℕ)
        → IsDoubleCover 7 (1 ∷ 2 ∷ 4 ∷ []) board → IsCircle 7 (1 ∷ 2 ∷ 4 ∷ []) part
        → label < board.labels
        → (to : ℕ → ℕ) × (back : ℕ → ℕ) × AreAbove board part label to back }
    ensures above_forty { (board : PlainBoard) → (part : PlainBoard) → (label : ℕ)
        → IsDoubleCover 19 (1 ∷ 4 ∷ 5 ∷ 6 ∷ 7 ∷ 9 ∷ 11 ∷ 16 ∷ 17 ∷ []) board
        → IsCircle 19 (1 ∷ 4 ∷ 5 ∷ 6 ∷ 7 ∷ 9 ∷ 11 ∷ 16 ∷ 17 ∷ []) part
        → label < board.labels
        → (to : ℕ → ℕ) × (back : ℕ → ℕ) × AreAbove board part label to back }
    ensures above_ninety_six { (board : PlainBoard) → (part : PlainBoard) → (label : ℕ)
        → IsDoubleCover 47 (1 ∷ 2 ∷ 3 ∷ 4 ∷ 6 ∷ 7 ∷ 8 ∷ 9 ∷ 12 ∷ 14 ∷ 16 ∷ 17 ∷ 18 ∷ 21 ∷ 24 ∷ 25
        ∷ 27 ∷ 28 ∷ 32 ∷ 34 ∷ 36 ∷ 37 ∷ 42 ∷ []) board
        → IsCircle 47 (1 ∷ 2 ∷ 3 ∷ 4 ∷ 6 ∷ 7 ∷ 8 ∷ 9 ∷ 12 ∷ 14 ∷ 16 ∷ 17 ∷ 18 ∷ 21 ∷ 24 ∷ 25 ∷ 27
        ∷ 28 ∷ 32 ∷ 34 ∷ 36 ∷ 37 ∷ 42 ∷ []) part
        → label < board.labels
        → (to : ℕ → ℕ) × (back : ℕ → ℕ) × AreAbove board part label to back }
    ensures sixteen { (board : PlainBoard) → IsDoubleCover 7 (1 ∷ 2 ∷ 4 ∷ []) board
        → AreChainsDominated board 3 }
    ensures forty { (board : PlainBoard)
        → IsDoubleCover 19 (1 ∷ 4 ∷ 5 ∷ 6 ∷ 7 ∷ 9 ∷ 11 ∷ 16 ∷ 17 ∷ []) board
        → AreChainsDominated board 4 }
    ensures ninety_six { (board : PlainBoard)
        → IsDoubleCover 47 (1 ∷ 2 ∷ 3 ∷ 4 ∷ 6 ∷ 7 ∷ 8 ∷ 9 ∷ 12 ∷ 14 ∷ 16 ∷ 17 ∷ 18 ∷ 21 ∷ 24 ∷ 25
        ∷ 27 ∷ 28 ∷ 32 ∷ 34 ∷ 36 ∷ 37 ∷ 42 ∷ []) board
        → AreChainsDominated board 5 }
{}

/// If each chain of up to a labels is dominated in the outer domain, and each of up to b in the
/// inner one, each of up to a + b is in the product. So on the nested board of level k each chain
/// of up to k - 1 labels is; but from level four on not each list of k - 1 labels.
pub fn products_dominate_chains()
    ensures chains { (outer : PlainBoard) → (inner : PlainBoard) → (board : PlainBoard)
        → (outer_count : ℕ) → (inner_count : ℕ) → IsProduct outer inner board
        → AreChainsDominated outer outer_count → AreChainsDominated inner inner_count
        → AreChainsDominated board (outer_count + inner_count) }
    ensures nested { (count : ℕ) → (board : PlainBoard) → IsNestedPlay (suc count) board
        → AreChainsDominated board count }
    ensures lists { (count : ℕ) → (board : PlainBoard)
        → IsNestedPlay (suc (suc (suc (suc count)))) board
        → AreDominated board (suc (suc (suc count))) → ⊥ }
{}
