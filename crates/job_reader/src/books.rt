ghost use Rattle.std.specs.Prelude.{◌≡◌, ◌<◌, ◌^◌, length};
ghost use Rattle.job_reader.specs.Whole.{FindsTwoArtefacts, FindsTwoPlaces, FindsTwoReferences};
ghost use Rattle.job_reader.specs.Testing.{Passes};

use crate::refusal::JobError;
use bench_trait::{Artefact, ArtefactBook, BookError};
use place_check::{PlaceEntry, Places, PlacesError};
use reference_book::{Reference, References, ReferencesError};
use std::alloc::Global;

/// The places of a job, no two of one name.
#[tactic(auto, using(crate::proofs::RepeatLemmas::places_distinct, crate::proofs::RepeatLemmas::places_repeat))]
pub(crate) fn places_of(alloc: Global, entries: Vec<PlaceEntry>) -> Result<Places, JobError>
    requires { length entries.items < 2 ^ 32 }
    ensures { Passes (FindsTwoPlaces entries.items) (λ places. places ≡ entries.items) result }
{
    match Places::of(alloc, entries) {
        Ok(places) => Ok(places),
        Err(PlacesError::Repeated { first, second }) => {
            Err(JobError::RepeatedPlace { first, second })
        }
        Err(PlacesError::NoMemory) => Err(JobError::NoMemory),
    }
}

/// The references of a job, none of them twice.
#[tactic(auto, using(crate::proofs::RepeatLemmas::references_distinct, crate::proofs::RepeatLemmas::references_repeat))]
pub(crate) fn references_of(entries: Vec<Reference>) -> Result<References, JobError>
    requires { length entries.items < 2 ^ 32 }
    ensures { Passes (FindsTwoReferences entries.items) (λ references. references ≡ entries.items) result }
{
    match References::of(entries) {
        Ok(references) => Ok(references),
        Err(ReferencesError::Repeated { first, second }) => {
            Err(JobError::RepeatedReference { first, second })
        }
    }
}

/// The book of a job's artefacts, no two of one place and name.
pub(crate) fn book_of(alloc: Global, artefacts: Vec<Artefact>) -> Result<ArtefactBook, JobError>
    requires { length artefacts.items < 2 ^ 32 }
    ensures { Passes (FindsTwoArtefacts artefacts.items) (λ book. book ≡ artefacts.items) result }
{
    let mut book = ArtefactBook::empty(alloc);
    let mut second = 0;
    for artefact in artefacts {
        let Artefact { place, name, bytes } = artefact;
        match book.add(place, name, bytes) {
            Ok(()) => second += 1,
            Err(BookError::Repeated { first }) => {
                return Err(JobError::RepeatedArtefact { first, second });
            }
            Err(BookError::NoMemory) => return Err(JobError::NoMemory),
        }
    }
    Ok(book)
}
