//! Laws of runs that tell of the same steps.

ghost use Rattle.std.specs.Prelude.{◌≡◌, ℕ, List, length};
ghost use Rattle.am_silence.specs.Mesh.{Mesh};
ghost use Rattle.am_nflog.specs.Mesh.{Mesh as LogMesh};
ghost use Rattle.am_runs.specs.Steps.{RunStep, flights_of};
ghost use Rattle.am_runs.specs.Members.{member_of, last_of};
ghost use Rattle.am_cluster.specs.declared.journal.mark.Mark.{Mark};
ghost use Rattle.am_cluster.specs.Marks.{step_of_mark};
ghost use Rattle.am_cluster.specs.Reports.{IsPossibleForLog, IsPossibleForSilences};
ghost use Rattle.am_cluster.specs.Twins.{IsTwin, AreTwins};

/// States that both runs say the same about a member, whether it runs and what its last moment is, and that as many frames
/// were sent in one as in the other.
pub fn twins_tell_same()
    ensures runs { (members place : ℕ) (silences : List (RunStep Mesh)) (log : List (RunStep LogMesh)) → AreTwins silences log →
        (member_of members place silences).runs ≡ (member_of members place log).runs }
    ensures last { (members place : ℕ) (silences : List (RunStep Mesh)) (log : List (RunStep LogMesh)) → AreTwins silences log →
        last_of (member_of members place silences) ≡ last_of (member_of members place log) }
    ensures flights { (silences : List (RunStep Mesh)) (log : List (RunStep LogMesh)) → AreTwins silences log →
        length (flights_of silences) ≡ length (flights_of log) }
{}

/// States that a step without versions is its own twin, and is possible in one run if it is possible in the other.
pub fn marks_are_told_of_both()
    ensures twins { (mark : Mark) → IsTwin (step_of_mark {X = Mesh} mark) (step_of_mark {X = LogMesh} mark) }
    ensures possible { (members : ℕ) (silences : List (RunStep Mesh)) (log : List (RunStep LogMesh)) (mark : Mark) →
        AreTwins silences log → IsPossibleForSilences members silences (step_of_mark mark) →
        IsPossibleForLog members log (step_of_mark mark) }
{}
