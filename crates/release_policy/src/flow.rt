use phrase_tree::{Name, Place};
use std::hash::{Hash, Hasher};

/// What rules look at in a disclosure: whose measurement goes where.
#[derive(Clone, Copy, PartialEq, Eq)]
pub(crate) struct Flow {
    pub place: Place,
    pub measurement: Name,
    pub receiver: Place,
}

impl Hash for Flow {
    ghost use Rattle.std.specs.Prelude.{◌≡◌, ◌∷◌, []};
    ghost use Rattle.release_policy.specs.Flow.{flow_input};
    ghost use Rattle.release_policy.specs.Flow.{input_is_same};

    ghost hash_input = { flow_input };

    ghost respects_eq = { input_is_same };

    fn hash<H: Hasher>(&self, state: &mut H) {
        state.write(self.place.bytes());
        state.write(self.measurement.bytes());
        state.write(self.receiver.bytes());
    }
}
