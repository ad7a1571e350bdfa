ghost use Rattle.std.specs.Prelude.{◌≡◌};
ghost use Rattle.job_values.specs.Words.{field_word};

/// A field of a job.
#[derive(Clone, Copy, Debug, PartialEq, Eq)]
pub enum Field {
    Places,
    Artefacts,
    Sessions,
    References,
    Bundle,
    Name,
    Key,
    Asks,
    Sees,
    Offers,
    Place,
    Bytes,
    Root,
    Nonce,
    Phrase,
    Target,
    Asp,
    Args,
    Answer,
    Session,
}

impl Field {
    /// The key under which the field stands in its object.
    pub fn word(self) -> &'static str
        ensures { result.now ≡ field_word self }
    {
        match self {
            Field::Places => "places",
            Field::Artefacts => "artefacts",
            Field::Sessions => "sessions",
            Field::References => "references",
            Field::Bundle => "bundle",
            Field::Name => "name",
            Field::Key => "key",
            Field::Asks => "asks",
            Field::Sees => "sees",
            Field::Offers => "offers",
            Field::Place => "place",
            Field::Bytes => "bytes",
            Field::Root => "root",
            Field::Nonce => "nonce",
            Field::Phrase => "phrase",
            Field::Target => "target",
            Field::Asp => "asp",
            Field::Args => "args",
            Field::Answer => "answer",
            Field::Session => "session",
        }
    }
}
