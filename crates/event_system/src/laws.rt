ghost use Rattle.std.specs.Prelude.{◌≡◌, ◌<◌, ◌↔◌, [], ◌∷◌, ◌++◌, ℕ, List, map};
ghost use Rattle.std.specs.List.{range_with_len};
ghost use Rattle.phrase_tree.specs.Term.{Term};
ghost use Rattle.phrase_tree.specs.Numbering.{event_count};
ghost use Rattle.phrase_tree.specs.Events.{events_of};
ghost use Rattle.event_system.specs.declared.direct.Needs.{Needs};
ghost use Rattle.event_system.specs.Needs.{needs_of, AreNeeds};
ghost use Rattle.event_system.specs.Order.{IsEvent, IsBefore};
ghost use Rattle.event_system.specs.Trace.{MayFollow, IsTraceSoFar, IsTrace};
ghost use Rattle.event_system.specs.System.{leaves, system_from, Orders};

/// The law of the event list: it has each number of the phrase's range once, in rising order.
pub fn list_law()
    ensures { (phrase : Term) (place : List ℕ) (first : ℕ) →
        map (λ event. event.number) (events_of phrase place first) ≡ range_with_len first (event_count phrase) }
{}

/// The law of the order: only events of the phrase are ordered, it is transitive, and the number of an
/// event is less than those of the events after it.
pub fn order_law()
    ensures transitive { (phrase : Term) (first x y z : ℕ) →
        IsBefore phrase first x y → IsBefore phrase first y z → IsBefore phrase first x z }
    ensures rising { (phrase : Term) (first x y : ℕ) → IsBefore phrase first x y → x < y }
    ensures events { (phrase : Term) (first x y : ℕ) →
        IsBefore phrase first x y → IsEvent phrase first x × IsEvent phrase first y }
{}

/// The law of direct predecessors: going down a phrase finds those of each number, at most two and
/// rising, and no other needs are those of the number.
pub fn needs_law()
    ensures direct { (phrase : Term) (event : ℕ) → AreNeeds phrase event (needs_of phrase event) }
    ensures once { (phrase : Term) (event : ℕ) (one other : Needs) →
        AreNeeds phrase event one → AreNeeds phrase event other → one ≡ other }
{}

/// The law of traces so far: the empty list is one, and a trace so far with a number that may follow it
/// is one again.
pub fn trace_law()
    ensures nothing { (phrase : Term) (first : ℕ) → IsTraceSoFar phrase first [] }
    ensures more { (phrase : Term) (first : ℕ) (trace : List ℕ) (next : ℕ) →
        IsTraceSoFar phrase first trace → MayFollow phrase first trace next →
        IsTraceSoFar phrase first (trace ++ next ∷ []) }
{}

/// The law of rising numbers: the numbers of a phrase in rising order are a trace of it.
pub fn rising_law()
    ensures { (phrase : Term) (first : ℕ) →
        IsTrace phrase first (range_with_len first (event_count phrase)) }
{}

/// The law of event systems: the leaves from left to right are the event list, and two events are
/// ordered by a `Before` exactly when they are by the order.
pub fn system_law()
    ensures leaves { (phrase : Term) (place : List ℕ) (first : ℕ) →
        leaves (system_from phrase place first) ≡ events_of phrase place first }
    ensures order { (phrase : Term) (place : List ℕ) (first x y : ℕ) →
        Orders (system_from phrase place first) x y ↔ IsBefore phrase first x y }
{}
