ghost use Rattle.std.specs.Prelude.{◌≡◌, ℕ, List, Some, None, IsSome, nat_eq, if◌then◌else◌};
ghost use Rattle.rising_list.specs.Rising.{RisesFrom, find, inserted, removed, replaced};

/// What is found after an entry came, went or changed: at its number what was put there, and
/// elsewhere what was there.
pub fn what_is_found<T>()
    ensures inserted { (number other : ℕ) (value : T) (entries : List (ℕ × T)) → find number entries ≡ None →
        find other (inserted number value entries) ≡ (if nat_eq number other then Some value else find other entries) }
    ensures removed { (number other : ℕ) (entries : List (ℕ × T)) → RisesFrom 0 entries →
        find other (removed number entries) ≡ (if nat_eq number other then None else find other entries) }
    ensures replaced { (number other : ℕ) (value : T) (entries : List (ℕ × T)) → IsSome (find number entries) →
        find other (replaced number value entries) ≡ (if nat_eq number other then Some value else find other entries) }
{}
