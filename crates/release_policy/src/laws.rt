ghost use Rattle.std.specs.Prelude.{◌≡◌, ◌<◌, ℕ, List, None, Some, length, slice_get, unwrap_or};
ghost use Rattle.std.specs.List.{AllByRecursion, join_with_byte};
ghost use Rattle.session_model.specs.Session.{Session};
ghost use Rattle.release_policy.specs.Choices.{Chooses};
ghost use Rattle.release_policy.specs.Denials.{IsReleased, first_denial};
ghost use Rattle.release_policy.specs.Disclosures.{disclosures};
ghost use Rattle.release_policy.specs.PolicyText.{IsBadPart, IsPolicyText, parts};
ghost use Rattle.release_policy.specs.declared.chosen.Choice.{Choice};
ghost use Rattle.release_policy.specs.declared.rule.Rule.{Rule};

/// The law of policies' texts: a text is that of at most one policy, or has one first part that is bad,
/// and never both; the parts of a text, joined by semicolons, are the text.
pub fn reading_law()
    ensures policy { (text : List ℕ) (policy other : List Rule) → IsPolicyText text policy → IsPolicyText text other → policy ≡ other }
    ensures bad { (text : List ℕ) (number other : ℕ) → IsBadPart text number → IsBadPart text other → number ≡ other }
    ensures apart { (text : List ℕ) (policy : List Rule) (number : ℕ) → IsPolicyText text policy → IsBadPart text number → ⊥ }
    ensures whole { (text : List ℕ) → join_with_byte 59 (parts text) ≡ text }
{}

/// The law of release: if a policy denies nothing of a session, each of its disclosures is to the
/// measurement's own place, or a rule that decides over it allows it.
pub fn release_law()
    ensures { (policy : List Rule) (session : Session) → first_denial policy session ≡ None → AllByRecursion (IsReleased policy) (disclosures session) }
{}

/// The law of choice: of the chosen session nothing is denied, so that each of its disclosures is
/// released; before it stand as many sessions as there are denials, or all sessions if none is chosen;
/// and each of these denials is the first one of its session.
pub fn choice_law()
    ensures chosen { (policy : List Rule) (sessions : List Session) (choice : Choice) (index : ℕ) (session : Session) →
        Chooses policy sessions choice → choice.chosen ≡ Some index → slice_get sessions index ≡ Some session → first_denial policy session ≡ None }
    ensures released { (policy : List Rule) (sessions : List Session) (choice : Choice) (index : ℕ) (session : Session) →
        Chooses policy sessions choice → choice.chosen ≡ Some index → slice_get sessions index ≡ Some session → AllByRecursion (IsReleased policy) (disclosures session) }
    ensures counted { (policy : List Rule) (sessions : List Session) (choice : Choice) →
        Chooses policy sessions choice → length choice.denials.items ≡ unwrap_or choice.chosen (length sessions) }
    ensures denials { (policy : List Rule) (sessions : List Session) (choice : Choice) (index : ℕ) (session : Session) →
        Chooses policy sessions choice → index < length choice.denials.items → slice_get sessions index ≡ Some session → slice_get choice.denials.items index ≡ first_denial policy session }
{}
