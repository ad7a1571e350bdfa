ghost use Rattle.std.specs.Prelude.{◌≡◌, ◌<◌, IfOk, IsSome, Some};
ghost use Rattle.bench_trait.specs.Artefacts.{artefact_bytes};
ghost use Rattle.bench_trait.specs.Digest.{artefact_place, digest_answer};
ghost use Rattle.load_maker.specs.Artefacts.{HasEachArtefact};
ghost use Rattle.load_maker.specs.References.{bench_reference, kim_reference, made_reference, made_references, usm_reference};

use crate::names::{place_name, plain_asp};
use bench_trait::{ArtefactBook, Ask, AskKind, Bench, DigestBench};
use evidence_types::Answer;
use phrase_tree::{Asp, NoMemory, Place};
use reference_book::{Reference, References, ReferencesError};
use std::alloc::Global;

/// What the program's own bench answers to a question whose artefact is there.
fn digest_answer(artefacts: &ArtefactBook, ask: &Ask) -> Answer
    requires { IsSome (digest_answer artefacts.now ask.now) }
    ensures { digest_answer artefacts.now ask.now ≡ Some result }
{
    match DigestBench.measure(artefacts, ask) {
        Ok(answer) => answer,
        Err(_) => unreachable!(),
    }
}

/// The reference of what a question asks.
fn reference_of(artefacts: &ArtefactBook, ask: Ask) -> Reference
    requires { IsSome (digest_answer artefacts.now ask) }
    ensures { result ≡ bench_reference artefacts.now ask.place ask.kind ask.asp }
{
    let answer = digest_answer(artefacts, &ask);
    let Ask {
        place,
        kind,
        asp,
        ..
    } = ask;
    Reference {
        place,
        kind,
        asp,
        answer,
    }
}

/// The reference of a measurement, with the answer of the program's own bench.
fn bench_reference(artefacts: &ArtefactBook, place: Place, kind: AskKind, asp: Asp) -> Reference
    requires { IsSome (artefact_bytes artefacts.now (artefact_place place kind) asp.name) }
    ensures { result ≡ bench_reference artefacts.now place kind asp }
{
    let ask = Ask {
        nonce: [0; 16],
        event: 0,
        place,
        kind,
        asp,
    };
    reference_of(artefacts, ask)
}

fn usm_reference(artefacts: &ArtefactBook, number: u32) -> Reference
    requires there { HasEachArtefact artefacts.now }
    requires few { number < 64 }
    ensures { result ≡ usm_reference artefacts.now number }
{
    let place = place_name(number / 8);
    bench_reference(artefacts, place, AskKind::Usm, plain_asp(number % 8))
}

fn kim_reference(artefacts: &ArtefactBook, number: u32) -> Reference
    requires there { HasEachArtefact artefacts.now }
    requires few { number < 512 }
    ensures { result ≡ kim_reference artefacts.now number }
{
    let place = place_name(number / 64);
    let target = place_name(number / 8 % 8);
    bench_reference(
        artefacts,
        place,
        AskKind::Kim(target),
        plain_asp(number % 8),
    )
}

fn made_reference(artefacts: &ArtefactBook, number: u32) -> Reference
    requires there { HasEachArtefact artefacts.now }
    requires few { number < 576 }
    ensures { result ≡ made_reference artefacts.now number }
{
    if number < 64 {
        return usm_reference(artefacts, number);
    }
    kim_reference(artefacts, number - 64)
}

fn made_entries(alloc: Global, artefacts: &ArtefactBook) -> Result<Vec<Reference>, NoMemory>
    requires { HasEachArtefact artefacts.now }
    ensures { IfOk result (λ entries. entries.items ≡ made_references artefacts.now) }
{
    let mut entries = Vec::new(alloc);
    for number in 0..576 {
        entries.push(made_reference(artefacts, number))?;
    }
    Ok(entries)
}

/// The references of a made job.
pub(crate) fn made_references(
    alloc: Global,
    artefacts: &ArtefactBook,
) -> Result<References, NoMemory>
    requires { HasEachArtefact artefacts.now }
    ensures { IfOk result (λ references. references ≡ made_references artefacts.now) }
{
    let entries = made_entries(alloc, artefacts)?;
    match References::of(entries) {
        Ok(references) => Ok(references),
        Err(ReferencesError::Repeated { .. }) => unreachable!(),
    }
}
