//! Laws of the texts that are written. Each is the contract of a function without a body.

ghost use Rattle.std.specs.Prelude.{◌≡◌, ℕ, ◌+◌, ◌≤◌, ◌⊎◌, List, [], Option, None, Some, sum};
ghost use Rattle.positions.specs.Ranks.{configurations};
ghost use Rattle.board_text.specs.PlainBoard.{PlainBoard, IsBoard, IsConfiguration};
ghost use Rattle.board_text.specs.BoardText.{board_text};
ghost use Rattle.positions.specs.Claim.{Holds, claim_of};
ghost use Rattle.proof_text.specs.Proof.{PlainProof};
ghost use Rattle.proof_text.specs.Documents.{IsProof};
ghost use Rattle.proof_text.specs.ProofText.{proof_text};
ghost use Rattle.proof_check.specs.declared.checking.Shown.{Shown as ShownClaim};
ghost use Rattle.positions.specs.declared.value.Value.{Value as ValueData};
ghost use Rattle.proof_text.specs.SymmetryProof.{PlainSymmetryProof as SymmetryProofData};
ghost use Rattle.runs.specs.Verdicts.{IsAcceptance, IsChecked, IsClassVerdict};
ghost use Rattle.runs.specs.Verdicts.{IsSymmetryVerdict, IsVerdict};
ghost use Rattle.runs.specs.Headline.{ShowsValue, IsAccepted};
ghost use Rattle.strategies.specs.Meaning.{Means};
ghost use Rattle.runs.specs.Report.{Report as CountReport, IsReport, IsReportOf, IsReportOfText};
ghost use Rattle.runs.specs.BoardRun.{readers_by};
ghost use Rattle.runs.specs.Run.{Bytes, Ran};
ghost use Rattle.runs.specs.SolveRun.{IsSolution, IsSolved};
ghost use Rattle.positions.specs.declared.side.Side.{Side as SideData};
ghost use Rattle.runs.specs.SideSolveRun.{IsSideSolution, IsUnsolvedFor};
ghost use Rattle.runs.specs.Texts.{HasNoBoard, HasNoProof, IsMemory, IsSmallBoard, IsWrongBoard};
ghost use Rattle.runs.specs.Texts.{IsBoardAmong, IsWrongWithin, OfAnySize};
ghost use Rattle.runs.specs.ClassSolveRun.{IsClassSolution, IsUnsolvedByClasses};
ghost use Rattle.runs.specs.Symmetries.{HasSymmetries};
ghost use Rattle.runs.specs.SymmetricRun.{GivesFewOrbits, LacksFewOrbits};
ghost use Rattle.runs.specs.SymmetricSolveRun.{IsSolutionUpTo, IsUnsolvedUpTo};
ghost use Rattle.runs.specs.CheckRun.{RanCheck};
ghost use Rattle.runs.specs.Meaning.{AcceptsLeast, CanAnswer};
ghost use Rattle.command_line.specs.declared.asked.BoardLimit.{BoardLimit as Limit};
ghost use Rattle.command_line.specs.declared.asked.BoardLimit.TheVariants.{Small, Large};
ghost use Rattle.runs.specs.declared.fault.RunFault.{RunFault as Fault};
ghost use Rattle.runs.specs.declared.fault.RunFault.TheVariants.{TooManyOrbits};
ghost use Rattle.runs.specs.declared.verdicts.Verdict.{Verdict as VerdictData};
ghost use Rattle.runs.specs.declared.verdicts.Verdict.TheVariants.{Accepted};

use crate::checking::{MAX_JOINED_BYTES, MAX_PROOF_BYTES};
use crate::given_symmetries::MAX_SYMMETRIES_BYTES;
use crate::reading::MAX_BOARD_BYTES;
use positions::MAX_CONFIGURATIONS;

/// Each text of a small board has one value of its start and one text of its document. Any other
/// text has one fault, and no text has both.
pub fn solution_or_fault()
    ensures solution { (text : List ℕ) → (board : PlainBoard) → IsSmallBoard text board
        → (value : ValueData) × (written : List ℕ) × IsSolution text value written }
    ensures one { (text : List ℕ) → (value : ValueData) → (worth : ValueData) → (written : List ℕ)
        → (other : List ℕ)
        → IsSolution text value written → IsSolution text worth other
        → (value ≡ worth) × (written ≡ other) }
    ensures either { (text : List ℕ)
        → ((value : ValueData) × (written : List ℕ) × IsSolution text value written)
        ⊎ ((fault : Fault) × IsWrongBoard text fault) }
    ensures one_fault { (text : List ℕ) → (fault : Fault) → (other : Fault)
        → IsWrongBoard text fault → IsWrongBoard text other
        → fault ≡ other }
    ensures not_both { (text : List ℕ) → (value : ValueData) → (written : List ℕ) → (fault : Fault)
        → IsSolution text value written → IsWrongBoard text fault → ⊥ }
{}

/// Each board has a report. Each text of a board within a limit has one, which is the same for both
/// limits; any other text has a fault, and no text has both. What has a report within the limit of
/// small boards has one within that of large ones.
pub fn report_or_fault()
    ensures report { (board : PlainBoard) → IsConfiguration board board.start
        → (text : List ℕ) × IsReportOf board text }
    ensures one { (limit : Limit) → (more : Limit) → (text : List ℕ) → (written : List ℕ)
        → (other : List ℕ)
        → IsReportOfText limit text written → IsReportOfText more text other → written ≡ other }
    ensures either { (limit : Limit) → (text : List ℕ)
        → ((written : List ℕ) × IsReportOfText limit text written) ⊎
        ((fault : Fault) × IsWrongWithin limit text fault) }
    ensures not_both { (limit : Limit) → (text : List ℕ) → (written : List ℕ) → (fault : Fault)
        → IsReportOfText limit text written → IsWrongWithin limit text fault → ⊥ }
    ensures larger { (text : List ℕ) → (written : List ℕ) → IsReportOfText Small text written
        → IsReportOfText Large text written }
{}

/// If a text was answered with `accepted least k`, the labeller can answer k requests from the
/// start of its board, whichever they are. If a document of any version is accepted, its claim
/// holds of the start's value.
pub fn accepted_claims_hold()
    ensures least { (text : List ℕ) → (number : ℕ) → AcceptsLeast text number
        → CanAnswer text number }
    ensures holds { (board : PlainBoard) → (proof : PlainProof) → (shown : ShownClaim) → (rows : ℕ)
        → IsBoard board
        → IsVerdict board proof (Accepted shown rows) → Holds board shown.claim }
    ensures by_classes { (board : PlainBoard) → (proof : PlainProof) → (shown : ShownClaim)
        → (rows : ℕ)
        → IsClassVerdict board proof (Accepted shown rows) → Holds board shown.claim }
    ensures up_to_symmetries { (board : PlainBoard) → (proof : SymmetryProofData)
        → (shown : ShownClaim) → (rows : ℕ)
        → IsSymmetryVerdict board proof (Accepted shown rows) → Holds board shown.claim }
{}

/// The value that a solved board is given is the greatest number of requests that a labeller can
/// answer against every adversary: the labeller's strategy that was written answers that many,
/// whichever they are, the adversary's leaves every labeller without an answer by the next, and
/// forever comes with a strategy that is closed over all requests and lists the start. A check
/// accepts the bytes written.
pub fn solved_boards_show_their_value()
    ensures value { (text : List ℕ) → (value : ValueData) → (written : List ℕ)
        → IsSolution text value written → ShowsValue text value written }
    ensures accepted { (text : List ℕ) → (value : ValueData) → (written : List ℕ)
        → IsSolution text value written
        → IsAccepted text value written }
{}

/// Any document of the format whose text was written means the value. So the strategies that a
/// reader finds in the bytes are those of which `solved_boards_show_their_value` speaks.
#[tactic(auto, using(crate::proofs::Headlines::written_means))]
pub fn written_documents_mean_the_value()
    ensures { (text : List ℕ) → (value : ValueData) → (written : List ℕ) → (board : PlainBoard)
        → (document : PlainProof)
        → IsAccepted text value written → IsBoard board → IsProof board document
        → text ≡ board_text board → written ≡ proof_text board document
        → Means board document value }
{}

/// The document that was written for a solved board is accepted, with the claim of the value. So a
/// check of the same board and of the bytes written answers this, or runs out of memory: neither of
/// the two texts has a fault.
pub fn printed_documents_are_accepted()
    ensures verdict { (board : PlainBoard) → (value : ValueData) → (text : List ℕ) → IsBoard board
        → configurations board ≤ MAX_CONFIGURATIONS
        → IsSolved board value text → (proof : PlainProof) → (verdict : VerdictData)
        → IsProof board proof → text ≡ proof_text board proof
        → IsVerdict board proof verdict → IsAcceptance (claim_of value) verdict }
    ensures text { (text : List ℕ) → (written : List ℕ) → (value : ValueData)
        → (board : PlainBoard) → (verdict : VerdictData) → (line : List ℕ)
        → IsSolution text value written → IsSmallBoard text board
        → IsChecked board written verdict line
        → IsAcceptance (claim_of value) verdict }
    ensures faultless_board { (text : List ℕ) → (written : List ℕ) → (value : ValueData)
        → IsSolution text value written
        → (fault : Fault) → HasNoBoard text fault → IsMemory fault }
    ensures faultless_document { (text : List ℕ) → (written : List ℕ) → (value : ValueData)
        → (board : PlainBoard) → (fault : Fault)
        → IsSolution text value written → IsSmallBoard text board → HasNoProof board written fault
        → IsMemory fault }
    ensures runs { (limit : ℕ) → (board_limit : ℕ) → (proof_limit : ℕ) → (bytes : List ℕ)
        → (text : List ℕ) → (solve_left : Option (List ℕ)) → (board_left : Option (List ℕ))
        → (proof_left : Option (List ℕ)) → (written : Bytes) → (value : ValueData)
        → (verdict : VerdictData)
        → Ran IsSolution limit (record { old = Some bytes; new = solve_left })
        (record { old = Some []; new = Some text }) value
        → RanCheck board_limit proof_limit
        (readers_by (record { old = Some bytes; new = board_left })
        (record { old = Some text; new = proof_left })) written verdict
        → IsAcceptance (claim_of value) verdict }
{}

/// What is written for a board that is solved by classes claims the value of its start, and a check
/// of the same board accepts it, or runs out of memory: neither of the two texts has a fault. Each
/// text has one such solution or one fault, and none has both.
pub fn class_solutions_are_accepted()
    ensures verdict { (text : List ℕ) → (written : List ℕ) → (value : ValueData)
        → IsClassSolution text value written → (board : PlainBoard)
        → IsBoardAmong OfAnySize text board
        → (verdict : VerdictData) → (line : List ℕ) → IsChecked board written verdict line
        → IsAcceptance (claim_of value) verdict }
    ensures faultless_document { (text : List ℕ) → (written : List ℕ) → (value : ValueData)
        → IsClassSolution text value written → (board : PlainBoard)
        → IsBoardAmong OfAnySize text board
        → (fault : Fault) → HasNoProof board written fault → IsMemory fault }
    ensures one { (text : List ℕ) → (value : ValueData) → (worth : ValueData) → (written : List ℕ)
        → (other : List ℕ)
        → IsClassSolution text value written → IsClassSolution text worth other
        → (value ≡ worth) × (written ≡ other) }
    ensures either { (text : List ℕ)
        → ((value : ValueData) × (written : List ℕ) × IsClassSolution text value written)
        ⊎ ((fault : Fault) × IsUnsolvedByClasses text fault) }
    ensures one_fault { (text : List ℕ) → (fault : Fault) → (other : Fault)
        → IsUnsolvedByClasses text fault → IsUnsolvedByClasses text other
        → fault ≡ other }
    ensures not_both { (text : List ℕ) → (value : ValueData) → (written : List ℕ) → (fault : Fault)
        → IsClassSolution text value written → IsUnsolvedByClasses text fault → ⊥ }
{}

/// Each text of a board within a limit has one document for a side alone, and one value of its
/// start, or one fault: requests are answered for ever and the adversary is asked for, or the
/// document by classes is longer than a check reads. Any other text has one fault, and no text has
/// both a document and a fault.
pub fn side_solution_or_fault()
    ensures one { (limit : Limit) → (side : SideData) → (text : List ℕ) → (value : ValueData)
        → (worth : ValueData) → (written : List ℕ) → (other : List ℕ)
        → IsSideSolution limit side text value written → IsSideSolution limit side text worth other
        → (value ≡ worth) × (written ≡ other) }
    ensures either { (limit : Limit) → (side : SideData) → (text : List ℕ)
        → ((value : ValueData) × (written : List ℕ) × IsSideSolution limit side text value written)
        ⊎ ((fault : Fault) × IsUnsolvedFor limit side text fault) }
    ensures one_fault { (limit : Limit) → (side : SideData) → (text : List ℕ) → (fault : Fault)
        → (other : Fault) → IsUnsolvedFor limit side text fault
        → IsUnsolvedFor limit side text other → fault ≡ other }
    ensures not_both { (limit : Limit) → (side : SideData) → (text : List ℕ) → (value : ValueData)
        → (written : List ℕ) → (fault : Fault) → IsSideSolution limit side text value written
        → IsUnsolvedFor limit side text fault → ⊥ }
{}

/// What is written for a board that is solved up to symmetries of its domain claims the value of
/// its start, and a check of the same board accepts it, or runs out of memory: the text has no fault.
/// Each text of symmetries gives one such document and value, for a side alone or for both, or one
/// fault: the board has too many orbits, or requests are answered for ever and the adversary is
/// asked for alone, or the document is longer than a check reads. A text without symmetries of this
/// domain has one fault at most, and no text has both a document and a fault.
pub fn symmetric_solutions_are_accepted()
    ensures verdict { (board : PlainBoard) → IsBoard board → (text : List ℕ) → (value : ValueData)
        → (written : List ℕ) → IsSolutionUpTo None board text value written
        → (verdict : VerdictData) → (line : List ℕ) → IsChecked board written verdict line
        → IsAcceptance (claim_of value) verdict }
    ensures faultless_document { (board : PlainBoard) → IsBoard board → (text : List ℕ)
        → (value : ValueData) → (written : List ℕ)
        → IsSolutionUpTo None board text value written → (fault : Fault)
        → HasNoProof board written fault → IsMemory fault }
    ensures one { (board : PlainBoard) → IsBoard board → (text : List ℕ)
        → (side : Option SideData) → (value : ValueData) → (worth : ValueData)
        → (written : List ℕ) → (other : List ℕ) → IsSolutionUpTo side board text value written
        → IsSolutionUpTo side board text worth other → (value ≡ worth) × (written ≡ other) }
    ensures either { (board : PlainBoard) → IsBoard board → (text : List ℕ)
        → (side : Option SideData) → HasSymmetries board text
        → ((value : ValueData) × (written : List ℕ) × IsSolutionUpTo side board text value written)
        ⊎ ((fault : Fault) × IsUnsolvedUpTo side board text fault) }
    ensures one_fault { (board : PlainBoard) → IsBoard board → (text : List ℕ)
        → (side : Option SideData) → (fault : Fault) → (other : Fault)
        → IsUnsolvedUpTo side board text fault → IsUnsolvedUpTo side board text other
        → fault ≡ other }
    ensures not_both { (board : PlainBoard) → IsBoard board → (text : List ℕ)
        → (side : Option SideData) → (value : ValueData) → (written : List ℕ) → (fault : Fault)
        → IsSolutionUpTo side board text value written → IsUnsolvedUpTo side board text fault → ⊥ }
{}

/// Each text of symmetries leaves a board few orbits, by which it is solved and its values are
/// counted, or too many, or has a fault. A text leaves few or has one fault, and not both.
pub fn symmetries_leave_few_orbits_or_a_fault()
    ensures either { (board : PlainBoard) → IsBoard board → (text : List ℕ)
        → HasSymmetries board text
        → GivesFewOrbits board text ⊎ LacksFewOrbits board text TooManyOrbits }
    ensures one_fault { (board : PlainBoard) → IsBoard board → (text : List ℕ) → (fault : Fault)
        → (other : Fault) → LacksFewOrbits board text fault → LacksFewOrbits board text other
        → fault ≡ other }
    ensures not_both { (board : PlainBoard) → IsBoard board → (text : List ℕ) → (fault : Fault)
        → GivesFewOrbits board text → LacksFewOrbits board text fault → ⊥ }
{}

/// The counts of a report add up to the number of configurations.
#[tactic(auto, using(crate::proofs::CountSums::adds_up))]
pub fn reports_add_up()
    ensures { (board : PlainBoard) → (report : CountReport) → IsReport board report
        → sum report.counts + report.forever ≡ configurations board }
{}

/// The most bytes that are read of a board, of a document, of a joined input and of symmetries.
/// CONTRIBUTING.md lists what else says these numbers.
pub fn limits()
    ensures board { MAX_BOARD_BYTES ≡ 1048576 }
    ensures proof { MAX_PROOF_BYTES ≡ 134217728 }
    ensures joined { MAX_JOINED_BYTES ≡ 134217728 }
    ensures symmetries { MAX_SYMMETRIES_BYTES ≡ 65536 }
{}
