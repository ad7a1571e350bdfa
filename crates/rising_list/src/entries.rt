ghost use Rattle.std.specs.Prelude.{◌≡◌, ◌<◌, ◌≤◌, length, None, IsSome, MatchOption, vec_len, vec_capacity};
ghost use Rattle.rising_list.specs.Rising.{RisesFrom, find, inserted, removed, replaced, place, IsAt, IsAbsent};

/// The number of entries below a number, by binary search.
fn place_of<T>(entries: &[(u32, T)], number: u32) -> usize
    requires { RisesFrom 0 entries.now }
    ensures place { result ≡ place number entries.now }
    ensures within { result ≤ length entries.now }
{
    let mut low = 0;
    let mut high = entries.len();
    while low < high {
        let middle = low + (high - low) / 2;
        if entries[middle].0 < number {
            low = middle + 1;
        } else {
            high = middle;
        }
    }
    low
}

/// The index of the entry of a number; none exactly when no entry has it.
fn index_of<T>(entries: &[(u32, T)], number: u32) -> Option<usize>
    requires { RisesFrom 0 entries.now }
    ensures { MatchOption result (IsAbsent number entries.now) (λ at. IsAt number entries.now at) }
{
    let at = place_of(entries, number);
    if at == entries.len() {
        return None;
    }
    if entries[at].0 != number {
        return None;
    }
    Some(at)
}

/// What lies at a number, by binary search; none exactly when no entry has it.
pub fn find_in<T: Copy>(entries: &[(u32, T)], number: u32) -> Option<T>
    requires { RisesFrom 0 entries.now }
    ensures { result ≡ find number entries.now }
{
    match index_of(entries, number) {
        Some(at) => Some(entries[at].1),
        None => None,
    }
}

/// Puts an entry in at its number, which has none. There is room for it.
pub fn insert_in<T: Copy>(entries: &mut Vec<(u32, T)>, number: u32, value: T)
    requires rises { RisesFrom 0 entries.old.items }
    requires free { find number entries.old.items ≡ None }
    requires room { vec_len entries.old < vec_capacity entries.old }
    ensures items { entries.new.items ≡ inserted number value entries.old.items }
    ensures rises { RisesFrom 0 entries.new.items }
    ensures capacity { vec_capacity entries.new ≡ vec_capacity entries.old }
{
    let at = place_of(entries, number);
    entries.insert(at, (number, value)).unwrap();
}

/// Takes out the entry of a number; none exactly when no entry has it, and then nothing changes.
pub fn remove_in<T: Copy>(entries: &mut Vec<(u32, T)>, number: u32) -> Option<T>
    requires rises { RisesFrom 0 entries.old.items }
    ensures found { result ≡ find number entries.old.items }
    ensures items { entries.new.items ≡ removed number entries.old.items }
    ensures rises { RisesFrom 0 entries.new.items }
    ensures capacity { vec_capacity entries.new ≡ vec_capacity entries.old }
{
    match index_of(entries, number) {
        Some(at) => Some(entries.remove(at).1),
        None => None,
    }
}

/// Puts another value at a number that has an entry.
pub fn replace_in<T: Copy>(entries: &mut [(u32, T)], number: u32, value: T)
    requires rises { RisesFrom 0 entries.old }
    requires there { IsSome (find number entries.old) }
    ensures items { entries.new ≡ replaced number value entries.old }
    ensures rises { RisesFrom 0 entries.new }
{
    let Some(at) = index_of(entries, number) else {
        unreachable!()
    };
    entries[at] = (number, value);
}
