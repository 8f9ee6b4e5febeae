//! Laws of the machine's rounds, each the contract of a function without a body.

ghost use Rattle.std.specs.Prelude.{◌≡◌, ℕ, ◌<◌, List, Option, Some, true, false, length};
ghost use Rattle.std.specs.Prelude.{slice_index};
ghost use Rattle.index_lists.specs.Lists.{times};
ghost use Rattle.graphs.specs.Numbered.{graph_of};
ghost use Rattle.solver.specs.Solving.{Solving, IsSolving, to_strike};
ghost use Rattle.solver.specs.Words.{AreFirstCounts, AreFirstValues};
ghost use Rattle.retro_core.specs.Round.{Round, opening_round, IsOpening, IsLawful, IsWorkedOff};
ghost use Rattle.retro_core.specs.Round.{all_won, HasWonAll};
ghost use Rattle.retro_core.specs.Stepping.{Does, LeadTo};
ghost use Rattle.retro_core.specs.History.{answer_in_history, IsClosedAt};
ghost use Rattle.retro_core.specs.declared.step.Step.{Step as StepData};
ghost use Rattle.retro_core.specs.declared.step.Seen.{Seen as SeenData};
ghost use Rattle.retro_core.specs.declared.step.Seen.TheVariants as answers;

/// A round opens lawfully with a solver's counts, its values
/// and the configurations that it has to strike.
pub fn rounds_open_lawfully()
    ensures { (s : Solving) → IsSolving s → (width : ℕ) → 0 < width → (counts : List ℕ)
        → (values : List (Option ℕ)) → (ranks : List ℕ)
        → length counts ≡ (graph_of s.game).gaps → length values ≡ (graph_of s.game).configurations
        → AreFirstCounts s counts → AreFirstValues s values → ranks ≡ to_strike s
        → IsOpening s width (opening_round s width counts values ranks) }
{}

/// Each step of a lawful round leads to a lawful one,
/// and so do any steps, in any order and of any seats.
pub fn steps_keep_rounds_lawful()
    ensures one { (before : Round) → (step : StepData) → (seen : SeenData) → (after : Round)
        → IsSolving before.solving → IsLawful before → Does before step seen after
        → IsLawful after }
    ensures any { (first : Round) → (steps : List (StepData × SeenData)) → (last : Round)
        → IsSolving first.solving → IsLawful first → LeadTo first steps last
        → IsLawful last × (last.solving ≡ first.solving) }
{}

/// When no seat has work left, the won configurations are exactly those of the next value, each
/// once: in a lawful round, and so in each that was opened from a solver, whatever steps were made,
/// and in whatever order.
pub fn worked_off_rounds_have_won_all()
    ensures lawful { (round : Round) → IsSolving round.solving → IsLawful round
        → IsWorkedOff round → HasWonAll round }
    ensures opened { (s : Solving) → (width : ℕ) → (first : Round)
        → (steps : List (StepData × SeenData)) → (last : Round)
        → IsSolving s → IsOpening s width first → LeadTo first steps last → IsWorkedOff last
        → (last.solving ≡ s) × HasWonAll last }
{}

/// Lost claims and closed gaps have a cause among the steps that lead from one round to another.
/// From an opening on, a claim is lost only after a claim that won the same configuration; a
/// configuration that is answered as won is in a won list at the end. A gap is answered as closed
/// at most once, only if it had a count at first and has none at the end, and always then.
pub fn answers_have_a_cause()
    ensures lost { (s : Solving) → (width : ℕ) → (first : Round)
        → (steps : List (StepData × SeenData)) → (last : Round)
        → IsSolving s → IsOpening s width first → LeadTo first steps last
        → (index : ℕ) → (config : ℕ)
        → answer_in_history steps index ≡ Some (answers.Tried config false)
        → (earlier : ℕ) × (earlier < index)
        × (answer_in_history steps earlier ≡ Some (answers.Tried config true)) }
    ensures won { (first : Round) → (steps : List (StepData × SeenData)) → (last : Round)
        → LeadTo first steps last
        → (index : ℕ) → (config : ℕ)
        → answer_in_history steps index ≡ Some (answers.Tried config true)
        → 0 < times config (all_won last) }
    ensures closed_once { (first : Round) → (steps : List (StepData × SeenData)) → (last : Round)
        → LeadTo first steps last → (gap : ℕ)
        → (index : ℕ) → (other : ℕ) → IsClosedAt steps gap index → IsClosedAt steps gap other
        → index ≡ other }
    ensures closed_only { (first : Round) → (steps : List (StepData × SeenData)) → (last : Round)
        → LeadTo first steps last → (gap : ℕ)
        → (index : ℕ) → IsClosedAt steps gap index
        → (0 < slice_index first.counts gap) × (slice_index last.counts gap ≡ 0) }
    ensures closed_always { (first : Round) → (steps : List (StepData × SeenData)) → (last : Round)
        → LeadTo first steps last → (gap : ℕ)
        → 0 < slice_index first.counts gap → slice_index last.counts gap ≡ 0
        → (index : ℕ) × IsClosedAt steps gap index }
{}
