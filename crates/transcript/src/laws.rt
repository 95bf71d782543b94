ghost use Rattle.std.specs.Prelude.{◌≡◌, ℕ, List};
ghost use Rattle.transcript.specs.Reached.{StopsKeepFlushed};
ghost use Rattle.transcript.specs.Transcript.{Ending, IsTranscript};

/// The transcript of a script and its ending are determined by the script.
pub fn a_transcript_is_determined()
    ensures { (script a b : List ℕ) (x y : Ending) → IsTranscript script a x → IsTranscript script b y
        → (a ≡ b) × (x ≡ y) }
{}

/// Each script has a transcript.
pub fn each_script_has_a_transcript()
    ensures { (script : List ℕ) → (text : List ℕ) × (ending : Ending) × IsTranscript script text ending }
{}

/// In each state that a script reaches, a stop of the machine keeps each entry that was flushed, and no more
/// than were taken.
pub fn what_was_flushed_is_kept()
    ensures { StopsKeepFlushed }
{}
