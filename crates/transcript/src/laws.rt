//! Laws of the format, which the functions of this module carry. They do nothing.

ghost use Rattle.std.specs.Prelude.{◌≡◌, ◌<◌, ◌↔◌, ℕ, List, ◌∷◌, Some, Ok, slice_index};
ghost use Rattle.session_model.specs.Session.{Session};
ghost use Rattle.session_runs.specs.Standing.{Entry, opened, has_starved, Standing};
ghost use Rattle.session_runs.specs.History.{standing_after};
ghost use Rattle.transcript.specs.Bytes.{IsTranscriptOf};
ghost use Rattle.transcript.specs.Reading.{read_transcript};

/// A history has at most one transcript, and a transcript is that of one history.
pub fn one_spelling()
    ensures bytes { (first second : List ℕ) (history : List Entry) →
        IsTranscriptOf first history → IsTranscriptOf second history → first ≡ second }
    ensures history { (bytes : List ℕ) (first second : List Entry) →
        IsTranscriptOf bytes first → IsTranscriptOf bytes second → first ≡ second }
{}

/// A session that starved has no transcript.
pub fn starved_has_none()
    ensures { (session : Session) (keys : List (List ℕ × List ℕ)) (bytes : List ℕ) (history : List Entry) (standing : Standing) (event : ℕ) →
        standing_after session keys history ≡ Some standing →
        standing.state ≡ has_starved event →
        IsTranscriptOf bytes history → ⊥ }
{}

/// Reading bytes gives the entries of just that history whose transcript they are. So bytes have a fault
/// exactly if they are the transcript of none.
pub fn transcript_or_fault()
    ensures { (bytes : List ℕ) (entries : List Entry) → ((index : ℕ) → slice_index bytes index < 256) →
        (read_transcript bytes ≡ Ok entries) ↔ IsTranscriptOf bytes (opened ∷ entries) }
{}
