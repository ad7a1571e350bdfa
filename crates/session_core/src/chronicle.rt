//! A session is a state with a history, which a turn cell can keep.
use crate::opened::Opened;
use crate::session::Session;
use bench_trait::Bench;
use session_book::Entry;
use turn_cell::Chronicle;

impl<'a, B: Bench> Chronicle for Session<'a, B> {
    ghost use Rattle.session_core.specs.Chronicle.{chronicle_of, is_history};

    type Opening = Opened<'a, B>;

    type Item = Entry;

    ghost history = { λ s. chronicle_of s.opening s.items };

    ghost begins = { λ s. is_history s.opening s.items };
}
