//! Laws of products of domains, each the contract of a function without a body.

ghost use Rattle.std.specs.Prelude.{◌≡◌, ◌↔◌, ◌⊎◌, ◌+◌, ◌*◌, ◌<◌, ℕ, suc};
ghost use Rattle.std.specs.Prelude.{All, List, [], ◌∷◌, length, replicate};
ghost use Rattle.board_text.specs.PlainBoard.{PlainBoard, ArePairs, Dominates, IsAntisymmetric};
ghost use Rattle.positions.specs.Game.{LabellerTree};
ghost use Rattle.positions.specs.Value.{HasValue};
ghost use Rattle.positions.specs.declared.value.Value.{Value as ValueData};
ghost use Rattle.positions.specs.declared.value.Value.TheVariants.{Finite, Forever};
ghost use Rattle.player.specs.NestedPlay.{IsNestedPlay};
ghost use Rattle.domains.specs.Carried.{Carries, CarriesExactly, SomeCarries};
ghost use Rattle.chains.specs.Chains.{AreChainsDominated};
ghost use Rattle.domains.specs.Circles.{AreResidues, IsCircle};
ghost use Rattle.domains.specs.Dominated.{AreDominated, IsHeld};
ghost use Rattle.domains.specs.DoubleCovers.{IsDoubleCover};
ghost use Rattle.domains.specs.Orders.{IsChain};
ghost use Rattle.domains.specs.Products.{IsProduct, IsProductOf, IsBelowCopy};
ghost use Rattle.domains.specs.ValueOrder.{IsAtMost};
ghost use Rattle.domains.specs.Withdrawal.{IsFreed};

/// A product lasts for ever with as many pebbles as its factors together, less one, if each factor
/// has each list of one label fewer than it has pebbles dominated: from each start whose labels are
/// in one copy and in copies that it beats, so from all pebbles on one label.
pub fn products_last()
    ensures { (outer : PlainBoard) → (inner : PlainBoard) → (board : PlainBoard)
        → (outer_count : ℕ) → (inner_count : ℕ) → (copy : ℕ) → (configuration : List ℕ)
        → IsProduct outer inner board
        → AreDominated outer outer_count → AreDominated inner inner_count
        → board.pebbles ≡ suc (outer_count + inner_count) → IsHeld board configuration
        → copy < outer.labels → IsBelowCopy outer inner copy configuration
        → HasValue board configuration Forever }
{}

/// A product lasts at least as long as the factor that lasts shorter, with as many pebbles as both
/// together, less one: from all pebbles on one label, or on none, if the outer factor lasts that
/// long from all on its copy, and the inner one from all on its part of the copy.
#[tactic(auto, using(crate::proofs::LemmasOfLaws::products_last_as_their_factors_lemmas))]
pub fn products_last_as_their_factors()
    ensures trees { (outer : PlainBoard) → (inner : PlainBoard) → (board : PlainBoard)
        → (depth : ℕ) → (copy : ℕ) → (piece : ℕ) → IsProduct outer inner board
        → suc board.pebbles ≡ outer.pebbles + inner.pebbles
        → copy < outer.labels → piece < inner.labels
        → LabellerTree outer depth (replicate outer.pebbles copy)
        → LabellerTree inner depth (replicate inner.pebbles piece)
        → LabellerTree board depth (replicate board.pebbles (copy * inner.labels + piece)) }
    ensures values { (outer : PlainBoard) → (inner : PlainBoard) → (board : PlainBoard)
        → (copy : ℕ) → (piece : ℕ) → (configuration : List ℕ)
        → (of_outer : ValueData) → (of_inner : ValueData) → (value : ValueData)
        → IsProduct outer inner board
        → suc board.pebbles ≡ outer.pebbles + inner.pebbles
        → copy < outer.labels → piece < inner.labels
        → IsFreed board (replicate board.pebbles (copy * inner.labels + piece)) configuration
        → HasValue outer (replicate outer.pebbles copy) of_outer
        → HasValue inner (replicate inner.pebbles piece) of_inner
        → HasValue board configuration value → IsAtMost of_outer value ⊎ IsAtMost of_inner value }
{}

/// A product of several domains lasts at least as long as the one that lasts shortest, from all
/// pebbles on the label 0.
#[tactic(auto, using(crate::proofs::SeveralProducts::several_last))]
pub fn several_products_last()
    ensures trees { (factors : List PlainBoard) → (board : PlainBoard) → (depth : ℕ)
        → IsProductOf factors board
        → All (λ factor. (0 < factor.pebbles)
        × LabellerTree factor depth (replicate factor.pebbles 0)) factors
        → LabellerTree board depth (replicate board.pebbles 0) }
    ensures forever { (factors : List PlainBoard) → (board : PlainBoard) → IsProductOf factors board
        → All (λ factor. (0 < factor.pebbles)
        × HasValue factor (replicate factor.pebbles 0) Forever) factors
        → HasValue board (replicate board.pebbles 0) Forever }
{}

/// A product lasts for ever with no more pebbles than its factors together, less one. If the outer
/// factor ends from each start, and the inner one too, the product with as many pebbles as both
/// together, less two, ends from each start. So it carries for ever exactly as many as its factors
/// carry together, less one; and so does a product of several domains. No two labels of the outer
/// factor may beat each other: two that do carry two, and their product with themselves four.
pub fn products_carry_no_more()
    ensures outer_lasts { (outer : PlainBoard) → (inner : PlainBoard) → (board : PlainBoard)
        → (configuration : List ℕ) → IsAntisymmetric outer → IsProduct outer inner board
        → suc (suc board.pebbles) ≡ outer.pebbles + inner.pebbles
        → length configuration ≡ board.pebbles → HasValue board configuration Forever
        → ((start : List ℕ) → length start ≡ inner.pebbles → HasValue inner start Forever → ⊥)
        → (start : List ℕ) × (length start ≡ outer.pebbles) × HasValue outer start Forever }
    ensures end { (outer : PlainBoard) → (inner : PlainBoard) → (board : PlainBoard)
        → (configuration : List ℕ) → IsAntisymmetric outer → IsProduct outer inner board
        → suc (suc board.pebbles) ≡ outer.pebbles + inner.pebbles
        → length configuration ≡ board.pebbles
        → ((start : List ℕ) → length start ≡ outer.pebbles → HasValue outer start Forever → ⊥)
        → ((start : List ℕ) → length start ≡ inner.pebbles → HasValue inner start Forever → ⊥)
        → (number : ℕ) × HasValue board configuration (Finite number) }
    ensures exactly { (outer : PlainBoard) → (inner : PlainBoard) → (board : PlainBoard)
        → (outer_count : ℕ) → (inner_count : ℕ) → (count : ℕ)
        → IsAntisymmetric outer → IsProduct outer inner board → 0 < outer.labels
        → suc count ≡ outer_count + inner_count
        → CarriesExactly outer outer_count → CarriesExactly inner inner_count
        → CarriesExactly board count }
    ensures several { (factors : List PlainBoard) → (board : PlainBoard)
        → IsProductOf factors board
        → All (λ factor. IsAntisymmetric factor × (0 < factor.labels)
        × CarriesExactly factor factor.pebbles) factors
        → CarriesExactly board board.pebbles }
    ensures both_ways { (domain : PlainBoard) × (board : PlainBoard)
        × IsProduct domain domain board × CarriesExactly domain 2 × Carries board 4 }
{}

/// Two domains have a product as plain data, with any number of pebbles and any start; and two
/// products of the same domains have the same labels, of which one beats another on both or on
/// neither, and with the same pebbles and start they are one board.
pub fn products_exist()
    ensures exist { (outer : PlainBoard) → (inner : PlainBoard) → (pebbles : ℕ) → (start : List ℕ)
        → 0 < inner.labels → IsAntisymmetric outer → IsAntisymmetric inner
        → (board : PlainBoard) × IsProduct outer inner board × ArePairs board.labels board.pairs
        × (board.pebbles ≡ pebbles) × (board.start ≡ start) }
    ensures agree { (outer : PlainBoard) → (inner : PlainBoard)
        → (first : PlainBoard) → (second : PlainBoard)
        → IsProduct outer inner first → IsProduct outer inner second
        → (first.labels ≡ second.labels)
        × ((x : ℕ) → (y : ℕ) → x < first.labels → y < first.labels
        → Dominates first x y ↔ Dominates second x y) }
    ensures one { (outer : PlainBoard) → (inner : PlainBoard)
        → (first : PlainBoard) → (second : PlainBoard)
        → IsProduct outer inner first → IsProduct outer inner second
        → ArePairs first.labels first.pairs → ArePairs second.labels second.pairs
        → first.pebbles ≡ second.pebbles → first.start ≡ second.start → first ≡ second }
{}

/// The nested board of a level from two on is the product of the three-cycle and the nested board
/// of one level less; so by the laws of products level k carries exactly k pebbles for ever.
pub fn nested_boards_are_products()
    ensures product { (count : ℕ)
        → (cycle : PlainBoard) → (inner : PlainBoard) → (board : PlainBoard)
        → IsCircle 3 (1 ∷ []) cycle → IsNestedPlay (suc count) inner
        → IsNestedPlay (suc (suc count)) board → IsProduct cycle inner board }
    ensures carries { (count : ℕ) → (board : PlainBoard) → IsNestedPlay (suc count) board
        → board.pebbles ≡ suc count → HasValue board (replicate board.pebbles 0) Forever }
    ensures exactly { (count : ℕ) → (board : PlainBoard) → IsNestedPlay (suc count) board
        → CarriesExactly board (suc count) }
{}

/// The product of the residues modulo seven and themselves carries five processes for ever on 49
/// labels, and no six; and that of a chain of 200 labels and these residues lasts 199 requests or
/// more with four processes.
pub fn large_products()
    ensures for_ever { (residues : PlainBoard) → (board : PlainBoard)
        → IsCircle 7 (1 ∷ 2 ∷ 4 ∷ []) residues → residues.pebbles ≡ 3
        → IsProductOf (residues ∷ residues ∷ []) board
        → (board.labels ≡ 49) × (board.pebbles ≡ 5)
        × HasValue board (replicate board.pebbles 0) Forever }
    ensures exactly { (residues : PlainBoard) → (board : PlainBoard)
        → IsCircle 7 (1 ∷ 2 ∷ 4 ∷ []) residues → residues.pebbles ≡ 3
        → IsProductOf (residues ∷ residues ∷ []) board → CarriesExactly board 5 }
    ensures exist { (residues : PlainBoard) × (board : PlainBoard)
        × IsCircle 7 (1 ∷ 2 ∷ 4 ∷ []) residues × (residues.pebbles ≡ 3)
        × IsProductOf (residues ∷ residues ∷ []) board × ArePairs board.labels board.pairs }
    ensures finite { (chain : PlainBoard) → (residues : PlainBoard) → (board : PlainBoard)
        → IsChain chain → chain.labels ≡ 200 → chain.pebbles ≡ 2
        → IsCircle 7 (1 ∷ 2 ∷ 4 ∷ []) residues → residues.pebbles ≡ 3
        → IsProductOf (chain ∷ residues ∷ []) board
        → (board.labels ≡ 1400) × (board.pebbles ≡ 4)
        × LabellerTree board 199 (replicate board.pebbles 0) }
{}

/// Few labels carry two to eight processes for ever, and no more: the three-cycle two, the
/// residues modulo seven three, of which each two are dominated by one, and the double covers of
/// 16, 40 and 96 labels, of the squares modulo 7, 19 and 47, four, five and six; and some domains
/// of 256 and 640 labels seven and eight. The residues modulo nineteen, of which each three labels
/// are dominated, carry four, and those modulo 47, of which each four that are a chain are, five;
/// products of these residues as many as their factors together, less one for each factor after
/// the first. That no domain has fewer labels isn't said.
#[tactic(auto, using(crate::proofs::LemmasOfLaws::few_labels_carry_many_lemmas))]
pub fn few_labels_carry_many()
    ensures residues_modulo_seven { (board : PlainBoard) → IsCircle 7 (1 ∷ 2 ∷ 4 ∷ []) board
        → AreDominated board 2 }
    ensures residues_modulo_nineteen { (board : PlainBoard)
        → IsCircle 19 (1 ∷ 4 ∷ 5 ∷ 6 ∷ 7 ∷ 9 ∷ 11 ∷ 16 ∷ 17 ∷ []) board → AreDominated board 3 }
    ensures residues_modulo_forty_seven { (board : PlainBoard)
        → IsCircle 47 (1 ∷ 2 ∷ 3 ∷ 4 ∷ 6 ∷ 7 ∷ 8 ∷ 9 ∷ 12 ∷ 14 ∷ 16 ∷ 17 ∷ 18 ∷ 21 ∷ 24 ∷ 25 ∷ 27
        ∷ 28 ∷ 32 ∷ 34 ∷ 36 ∷ 37 ∷ 42 ∷ []) board
        → AreChainsDominated board 4 }
    ensures two { SomeCarries 3 2 }
    ensures three { SomeCarries 7 3 }
    ensures four { SomeCarries 16 4 }
    ensures five { SomeCarries 40 5 }
    ensures six { SomeCarries 96 6 }
    ensures seven { SomeCarries 256 7 }
    ensures eight { SomeCarries 640 8 }
    ensures sixteen { (board : PlainBoard) → IsAntisymmetric board
        → IsDoubleCover 7 (1 ∷ 2 ∷ 4 ∷ []) board → CarriesExactly board 4 }
    ensures forty { (board : PlainBoard) → IsAntisymmetric board
        → IsDoubleCover 19 (1 ∷ 4 ∷ 5 ∷ 6 ∷ 7 ∷ 9 ∷ 11 ∷ 16 ∷ 17 ∷ []) board
        → CarriesExactly board 5 }
    ensures ninety_six { (board : PlainBoard) → IsAntisymmetric board
        → IsDoubleCover 47 (1 ∷ 2 ∷ 3 ∷ 4 ∷ 6 ∷ 7 ∷ 8 ∷ 9 ∷ 12 ∷ 14 ∷ 16 ∷ 17 ∷ 18 ∷ 21 ∷ 24 ∷ 25
        ∷ 27 ∷ 28 ∷ 32 ∷ 34 ∷ 36 ∷ 37 ∷ 42 ∷ []) board
        → CarriesExactly board 6 }
    ensures cycle { (board : PlainBoard) → IsAntisymmetric board → IsCircle 3 (1 ∷ []) board
        → CarriesExactly board 2 }
    ensures residues { (board : PlainBoard) → IsAntisymmetric board → AreResidues board
        → CarriesExactly board board.pebbles }
    ensures products { (factors : List PlainBoard) → (board : PlainBoard)
        → All (λ factor. IsAntisymmetric factor × AreResidues factor) factors
        → IsProductOf factors board → CarriesExactly board board.pebbles }
{}
