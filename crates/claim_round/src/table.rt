//! The rule of a round's table, and the contract of each kind of step.

use atomic_table::{Join, Play, Split, TableRule};
use graphs::Numbering;
use index_lists::ListStore;
use solver::Solver;
use std::marker::Model;

/// The knowledge of a seat, in contracts alone. No value of this type is made.
pub struct Hand {
    none: (),
}

impl Model for Hand {
    ghost use Rattle.claim_round.specs.Shared.{View};
    ghost use Rattle.claim_round.specs.Rule.{spent_view};

    ghost Value = { View };

    ghost view = { λ _. spent_view };
}

/// The solver and the width that a table is made for.
#[derive(Drop)]
pub struct Plan<'a, S: ListStore, N: Numbering> {
    pub solver: &'a Solver<S, N>,
    pub width: u32,
}

impl<'a, S: ListStore, N: Numbering> Model for Plan<'a, S, N> {
    ghost use Rattle.claim_round.specs.Shared.{Key};

    ghost Value = { Key };

    ghost view = { λ p. record { solving = p.solver.now; width = p.width } };
}

/// The rule between any two steps of any threads: the words and the seats have a history.
pub struct Rule;

impl<'a, S: ListStore, N: Numbering> TableRule<(), Hand, Plan<'a, S, N>> for Rule {
    ghost use Rattle.claim_round.specs.Rule.{Kept};
    ghost use Rattle.claim_round.specs.Inside.Openings.{opening_view};

    ghost holds = { Kept };

    ghost first = { opening_view };
}

pub struct Strike;

impl Play<(), Hand> for Strike {
    ghost use Rattle.claim_round.specs.Plays.{TableStrikes};

    ghost then = { TableStrikes };
}

pub struct Try;

impl Play<(), Hand> for Try {
    ghost use Rattle.claim_round.specs.Plays.{TableTries};

    ghost then = { TableTries };
}

pub struct Halves;

impl Split<Hand> for Halves {
    ghost use Rattle.claim_round.specs.Shared.{kept_part, new_part};

    ghost left = { kept_part };

    ghost right = { new_part };
}

impl Join<Hand> for Halves {
    ghost use Rattle.claim_round.specs.Shared.{view_joined};
    ghost use Rattle.claim_round.specs.Rule.{spent_view};

    ghost both = { view_joined };

    ghost spent = { spent_view };
}

pub struct Look;

impl Play<(), Hand> for Look {
    ghost use Rattle.claim_round.specs.Plays.{Looks};

    ghost then = { Looks };
}
