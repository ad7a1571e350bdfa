ghost use Rattle.std.specs.Prelude.{◌≡◌, ℕ, List, [], ◌∷◌, ◌++◌, Some};
ghost use Rattle.sha2.specs.Sha256.{sha256};
ghost use Rattle.bench_trait.specs.Digest.{arg_text, args_text, artefact_place, digest_answer, digest_message, LacksArtefact};

use crate::artefacts::ArtefactBook;
use crate::ask::{Ask, AskKind};
use crate::bench::{Bench, BenchFault, MeasureError};
use evidence_types::Answer;
use itoa::Buffer;
use phrase_tree::{Arg, Asp, Place};
use sha2::{Digest, Sha256};

/// The program's own measurer: its answer is the SHA-256 digest (FIPS 180-4) of the measurement's
/// name, its arguments and the artefact of that name, at the place or at the target. So each question
/// has exactly one answer, or the one fault that there is no such artefact. It takes no memory.
#[derive(Clone, Copy, Debug)]
pub struct DigestBench;

impl Bench for DigestBench {
    ghost gives = { λ bench artefacts ask bytes. digest_answer artefacts ask ≡ Some bytes };

    ghost fails = { λ bench artefacts ask fault. LacksArtefact artefacts ask fault };

    ghost starves = { λ bench artefacts ask. ⊥ };

    fn measure(&self, artefacts: &ArtefactBook, ask: &Ask) -> Result<Answer, MeasureError> {
        match artefacts.find(standing_at(ask), ask.asp.name) {
            Some(bytes) => Ok(digest_of(&ask.asp, bytes)),
            None => Err(MeasureError::Fault(BenchFault::NoArtefact)),
        }
    }
}

/// The place that has the artefact of a question.
fn standing_at(ask: &Ask) -> Place
    ensures { result ≡ artefact_place ask.now.place ask.now.kind }
{
    match ask.kind {
        AskKind::Usm => ask.place,
        AskKind::Kim(target) => target,
    }
}

fn digest_of(asp: &Asp, artefact: &[u8]) -> Answer
    ensures { result ≡ sha256 (digest_message asp.now artefact.now) }
{
    let mut hasher = Sha256::new();
    hasher.update(asp.name.bytes());
    hasher.update([0u8]);
    feed_args(&mut hasher, asp.args.items());
    hasher.update(artefact);
    let digest: [u8; 32] = hasher.finalize();
    Answer::of(&digest).unwrap()
}

fn feed_args(hasher: &mut Sha256, args: &[Arg])
    ensures { (fed : List ℕ) → ⟦<Sha256 as Digest>⟧.holds hasher.old fed
        → ⟦<Sha256 as Digest>⟧.holds hasher.new (fed ++ args_text args.now) }
{
    for arg in args {
        feed_arg(hasher, arg);
    }
}

fn feed_arg(hasher: &mut Sha256, arg: &Arg)
    ensures { (fed : List ℕ) → ⟦<Sha256 as Digest>⟧.holds hasher.old fed
        → ⟦<Sha256 as Digest>⟧.holds hasher.new (fed ++ (arg_text arg.now ++ 0 ∷ [])) }
{
    match arg {
        Arg::Word(name) => hasher.update(name.bytes()),
        Arg::Number(number) => hasher.update(Buffer::new().format(*number)),
    }
    hasher.update([0u8]);
}
