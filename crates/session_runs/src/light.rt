ghost use Rattle.std.specs.Prelude.{◌≡◌, ℕ, List, Some, length};
ghost use Rattle.evidence_types.specs.Bytes.{FitsBundle};
ghost use Rattle.evidence_types.specs.Measure.{IsLight};
ghost use Rattle.session_model.specs.Session.{Session};
ghost use Rattle.session_runs.specs.Standing.{Entry, Standing, makings};
ghost use Rattle.session_runs.specs.History.{standing_after};
ghost use Rattle.session_runs.specs.Light.{AllValues, AreShort};

/// The law of light sessions: after every history with answers of at most 1,024 bytes, of a session whose
/// phrase is nowhere oversize and whose nonce has 16 bytes, every value that the session holds fits a
/// bundle, and every value that its next moves make does too.
pub fn light_law()
    ensures { (session : Session) (keys : List (List ℕ × List ℕ)) (history : List Entry) (standing : Standing) →
        IsLight session.phrase →
        length session.nonce ≡ 16 →
        AreShort history →
        standing_after session keys history ≡ Some standing →
        AllValues FitsBundle (makings session keys) session.root standing.configuration }
{}
