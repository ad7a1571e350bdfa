ghost use Rattle.std.specs.Prelude.{◌≡◌, [], ◌∷◌, ◌++◌, OnOk, IfErr, OnErr};

use std::marker::Model;

/// A list of bytes on the heap.
#[derive(Debug, Drop)]
pub struct Bytes {
    bytes: Vec<u8>,
}

impl Model for Bytes {
    ghost use Rattle.std.specs.Prelude.{ℕ, List};

    ghost Value = { List ℕ };

    ghost view = { λ list. list.bytes.items };
}

impl Bytes {
    /// The list of these bytes.
    pub fn of(items: Vec<u8>) -> Bytes
        ensures { result ≡ items.items }
    {
        Bytes { bytes: items }
    }

    pub fn items(&self) -> &[u8]
        ensures { result.now ≡ self.now }
    {
        &self.bytes
    }

    /// Appends a byte. An error is want of memory: it hands the byte back, and the list is unchanged.
    pub fn push(&mut self, item: u8) -> Result<(), u8>
        ensures ok { OnOk result (self.new ≡ self.old ++ item ∷ []) }
        ensures handed_back { IfErr result (λ byte. byte ≡ item) }
        ensures err { OnErr result (self.new ≡ self.old) }
    {
        match self.bytes.push(item) {
            Ok(()) => Ok(()),
            Err(refused) => Err(refused.value),
        }
    }
}
