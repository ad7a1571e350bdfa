// What a state tells of its past.

/// An entry of a history: its opening, or an item with the number of the pass that made it. No value of it is made.
pub enum Entry<O, I> {
    Opened(O),
    Made(u32, I),
}

/// A state with a history. The history's first entry is its opening, and each later one is an item of some pass.
pub trait Chronicle: Drop {
    ghost use Rattle.std.specs.Prelude.{List};
    ghost use Rattle.turn_cell.specs.declared.chronicle.Entry.{Entry};
    ghost use Rattle.turn_cell.specs.History.{IsHistory};

    type Opening;

    type Item;

    ghost history: { Self → List (Entry Self.Opening Self.Item) };

    ghost begins: { (state : Self) → IsHistory (history state) };
}
