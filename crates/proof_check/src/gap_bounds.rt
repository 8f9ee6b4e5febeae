//! Numbers above those of the rows of all results of a request, by its gap: the answers to it and
//! their results are those of its gap, which many rows ask.

ghost use Rattle.std.specs.Prelude.{◌≡◌, ◌≤◌, true, IfOk};
ghost use Rattle.positions.specs.Gaps.{gap_of};
ghost use Rattle.positions.specs.Ranks.{configuration_at};
ghost use Rattle.proof_text.specs.Positions.{configuration_positions};
ghost use Rattle.proof_text.specs.Proof.{request_row};
ghost use Rattle.proof_text.specs.Rules.{MeetsAnswers};
ghost use Rattle.proof_check.specs.Inside.Checker.{IsRequesting};
ghost use Rattle.proof_check.specs.Inside.GapBounds.{AreBounds, IsBound};

use crate::checker::Checker;
use proof_text::AdversaryRow;
use std::alloc::{AllocError, Global};

/// The bound of a gap of which a result has no row, or that no row asks.
pub(crate) const NO_BOUND: u32 = u32::MAX;

impl Checker<'_> {
    /// For each gap that a row of the adversary asks, a number above those of the rows of all
    /// results. It is empty if there is no row.
    pub(crate) fn bounds_of_rows(&self, alloc: Global) -> Result<Vec<u32>, AllocError>
        ensures { IfOk result
            (λ bounds. AreBounds self.now.board self.now.proof.adversary bounds.items) }
    {
        let rows = self.adversary().rows();
        if rows.is_empty() {
            return Ok(Vec::new(alloc));
        }
        let mut bounds = vec![in alloc; NO_BOUND; self.space().gaps() as usize]?;
        for row in rows {
            let gap = self.space().gap(row.at, row.ask) as usize;
            if bounds[gap] == NO_BOUND {
                bounds[gap] = self.bound(row);
            }
        }
        Ok(bounds)
    }

    /// The least number above those of the rows of all results of the request of `row`; `NO_BOUND`
    /// if a result has no row.
    fn bound(&self, row: &AdversaryRow) -> u32
        requires { IsRequesting self.now.board row.now }
        ensures { IsBound self.now.board self.now.proof.adversary
            (gap_of self.now.board (configuration_at self.now.board row.now.at) row.now.ask)
            result }
    {
        let moves = self.moves(row.at);
        let mut answers = moves.answers(row.ask).walk();
        let results = moves.results(row.ask);
        let mut bound = 0;
        while let Some(label) = answers.take_next() {
            let above = self.adversary().count(results.rank(label));
            if above == 0 {
                return NO_BOUND;
            }
            bound = raised(bound, above);
        }
        bound
    }

    /// Whether the bound of its gap shows that `row` meets each answer.
    pub(crate) fn is_bounded(&self, row: &AdversaryRow) -> bool
        requires { IsRequesting self.now.board row.now }
        ensures { result ≡ true
            → MeetsAnswers configuration_positions self.now.board self.now.proof.adversary
            (request_row self.now.board row.now) }
    {
        let gap = self.space().gap(row.at, row.ask);
        match self.bounds().get(gap as usize) {
            Some(bound) => *bound < NO_BOUND && *bound <= row.left,
            None => false,
        }
    }
}

/// The `bound`, raised to `above` if it is less.
fn raised(bound: u32, above: u32) -> u32
    ensures kept { bound ≤ result }
    ensures above { above ≤ result }
{
    if bound < above { above } else { bound }
}
