// The laws of the entries that carry a number.
ghost use Rattle.std.specs.Prelude.{◌≡◌, ◌≢◌, ℕ, List, [], ◌++◌};
ghost use Rattle.turn_cell.specs.declared.chronicle.Entry.{Entry};
ghost use Rattle.turn_cell.specs.History.{made_by, own, Continues};

/// The entries of a pass in a history and in what follows it are those in the two joined. Of the items of one pass,
/// that pass has all, and every other none. If a history has no more entries of a pass than a beginning of it has,
/// what follows that beginning has none.
pub fn made_by_law<O, I>()
    ensures joined { (number : ℕ) (before behind : List (Entry O I)) →
        made_by number (before ++ behind) ≡ made_by number before ++ made_by number behind }
    ensures own_items { (number : ℕ) (items : List I) →
        made_by {O = O} number (own number items) ≡ own number items }
    ensures others_items { (number other : ℕ) (items : List I) → other ≢ number →
        made_by {O = O} number (own other items) ≡ [] }
    ensures behind { (number : ℕ) (seen history : List (Entry O I)) (longer : Continues seen history) →
        made_by number history ≡ made_by number seen → made_by number longer.rest ≡ [] }
{}
