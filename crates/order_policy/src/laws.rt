ghost use Rattle.std.specs.Prelude.{◌≡◌, ◌<◌, ◌↔◌, ℕ, List, map, Contains};
ghost use Rattle.std.specs.List.{range_with_len, AllZip};
ghost use Rattle.phrase_tree.specs.Term.{Term};
ghost use Rattle.phrase_tree.specs.Numbering.{event_count};
ghost use Rattle.event_system.specs.Order.{IsBefore};
ghost use Rattle.order_policy.specs.declared.claim.Claim.{Claim};
ghost use Rattle.order_policy.specs.declared.judgement.Judgement.{Judgement};
ghost use Rattle.order_policy.specs.declared.label.Label.{Label};
ghost use Rattle.order_policy.specs.Judged.{IsJudged};
ghost use Rattle.order_policy.specs.Labels.{labels_of};
ghost use Rattle.order_policy.specs.Policy.{SpellsPolicy};

/// The law of labels: the first labels are the numbers of the phrase's events, in rising order, and one
/// event is before another exactly when both of its labels are less.
pub fn label_law()
    ensures numbers { (phrase : Term) (first second : ℕ) →
        map (λ label. label.first) (labels_of phrase first second) ≡ range_with_len first (event_count phrase) }
    ensures order { (phrase : Term) (first second : ℕ) (x y : Label) →
        Contains (labels_of phrase first second) x → Contains (labels_of phrase first second) y →
        IsBefore phrase first x.first y.first ↔ ((x.first < y.first) × (x.second < y.second)) }
{}

/// The law of policy texts: a text is that of one policy.
pub fn policy_law()
    ensures { (text : List ℕ) (one other : List Claim) →
        SpellsPolicy text one → SpellsPolicy text other → one ≡ other }
{}

/// The law of judgements: what is found of the claims of a policy is one list only.
pub fn judged_law()
    ensures { (phrase : Term) (root : List ℕ) (claims : List Claim) (one other : List Judgement) →
        AllZip (IsJudged phrase root) claims one → AllZip (IsJudged phrase root) claims other → one ≡ other }
{}
