//! Laws of domains that follow one another, each the contract of a function without a body.

ghost use Rattle.std.specs.Prelude.{◌≡◌, ◌≢◌, ◌↔◌, ◌<◌, ℕ, List, length, slice_index, slice_set};
ghost use Rattle.std.specs.List.{remove};
ghost use Rattle.std.specs.List.Sorted.{IsPermutation};
ghost use Rattle.board_text.specs.PlainBoard.{PlainBoard};
ghost use Rattle.positions.specs.Game.{LabellerTree};
ghost use Rattle.positions.specs.Value.{HasValue};
ghost use Rattle.positions.specs.declared.value.Value.TheVariants.{Forever};
ghost use Rattle.domains.specs.Embedding.{IsWithin, IsOnBoth, HasOnePebbleFewer};
ghost use Rattle.domains.specs.Embedding.{IsRenaming, IsRenamed};
ghost use Rattle.domains.specs.Follows.{Follows, IsLed};
ghost use Rattle.domains.specs.Used.{KeepsUsed};
ghost use Rattle.domains.specs.ValueOrder.{IsWorthAtMost, AreWorthTheSame};
ghost use Rattle.domains.specs.Withdrawal.{IsFreed, WithdrawalTree};

/// A board whose pebbles each follow a pebble of another board, on the images of its labels or on
/// none, lasts as long as that board.
#[tactic(auto, using(crate::proofs::LemmasOfLaws::followers_last_lemmas))]
pub fn followers_last()
    ensures trees { (board : PlainBoard) → (leading : PlainBoard)
        → (image : ℕ → ℕ) → (leader : ℕ → ℕ) → (depth : ℕ) → (configuration : List ℕ)
        → (led : List ℕ) → Follows board leading image leader
        → IsLed board leading image leader configuration led
        → LabellerTree leading depth configuration → LabellerTree board depth led }
    ensures values { (board : PlainBoard) → (leading : PlainBoard)
        → (image : ℕ → ℕ) → (leader : ℕ → ℕ) → (configuration : List ℕ) → (led : List ℕ)
        → Follows board leading image leader
        → IsLed board leading image leader configuration led
        → IsWorthAtMost leading configuration board led }
{}

/// More labels and more pairs never lower the value of a configuration that both boards have.
#[tactic(auto, using(crate::proofs::Embedded::wider_lasts))]
pub fn wider_domains_last()
    ensures { (board : PlainBoard) → (wider : PlainBoard) → (configuration : List ℕ)
        → IsWithin board wider → IsOnBoth board wider configuration
        → IsWorthAtMost board configuration wider configuration }
{}

/// Other names for the labels keep each value.
pub fn renamed_labels_keep_values()
    ensures { (board : PlainBoard) → (renamed : PlainBoard) → (to : ℕ → ℕ) → (back : ℕ → ℕ)
        → (configuration : List ℕ) → (other : List ℕ) → IsRenaming board renamed to back
        → IsRenamed board to configuration other
        → AreWorthTheSame board configuration renamed other }
{}

/// Processes that exchange their labels, in any way, keep the value.
#[tactic(auto, using(crate::proofs::Exchanges::permuted_worth))]
pub fn exchanged_labels_keep_values()
    ensures { (board : PlainBoard) → (configuration : List ℕ) → (other : List ℕ)
        → length configuration ≡ board.pebbles → IsPermutation configuration other
        → AreWorthTheSame board configuration board other }
{}

/// One process fewer never lowers the value.
#[tactic(auto, using(crate::proofs::Embedded::fewer_last))]
pub fn fewer_pebbles_last()
    ensures { (board : PlainBoard) → (fewer : PlainBoard) → (configuration : List ℕ) → (pebble : ℕ)
        → HasOnePebbleFewer board fewer → length configuration ≡ board.pebbles
        → pebble < board.pebbles
        → IsWorthAtMost board configuration fewer (remove configuration pebble) }
{}

/// A configuration lasts as long when some of its pebbles give up their labels.
#[tactic(auto, using(crate::proofs::LemmasOfLaws::freed_labels_last_lemmas))]
pub fn freed_labels_last()
    ensures trees { (board : PlainBoard) → (depth : ℕ) → (held : List ℕ) → (freed : List ℕ)
        → IsFreed board held freed
        → LabellerTree board depth held → LabellerTree board depth freed }
    ensures values { (board : PlainBoard) → (held : List ℕ) → (freed : List ℕ)
        → IsFreed board held freed
        → IsWorthAtMost board held board freed }
{}

/// Processes that withdraw change no value: a labeller answers as many requests when labels may be
/// taken away before each of them.
#[tactic(auto, using(crate::proofs::Withdrawals::withdrawals))]
pub fn withdrawals_change_nothing()
    ensures { (board : PlainBoard) → (depth : ℕ) → (configuration : List ℕ)
        → LabellerTree board depth configuration ↔ WithdrawalTree board depth configuration }
{}

/// Of two processes on one label one counts as none: the value stays if one of them gives it up.
#[tactic(auto, using(crate::proofs::SharedLabels::shared_labels))]
pub fn shared_labels_count_once()
    ensures { (board : PlainBoard) → (configuration : List ℕ) → (pebble : ℕ) → (other : ℕ)
        → length configuration ≡ board.pebbles → other < board.pebbles → pebble ≢ other
        → slice_index configuration pebble ≡ slice_index configuration other
        → AreWorthTheSame board configuration
        board (slice_set configuration pebble board.labels) }
{}

/// Call a label used if the domain lasts for ever from all processes on it. A domain lasts for ever
/// exactly if its used labels alone do: all others can go, and what is left may have other names.
pub fn unused_labels_can_go()
    ensures last { (board : PlainBoard) → (part : PlainBoard) → (image : ℕ → ℕ)
        → (configuration : List ℕ) → (other : List ℕ) → KeepsUsed board part image
        → IsLed part board image (λ pebble. pebble) configuration other
        → HasValue board configuration Forever → HasValue part other Forever }
    ensures exactly { (board : PlainBoard) → (part : PlainBoard) → (image : ℕ → ℕ) → (back : ℕ → ℕ)
        → KeepsUsed board part image → Follows board part back (λ pebble. pebble)
        → ((configuration : List ℕ) × (length configuration ≡ board.pebbles)
        × HasValue board configuration Forever)
        ↔ ((configuration : List ℕ) × (length configuration ≡ part.pebbles)
        × HasValue part configuration Forever) }
{}
