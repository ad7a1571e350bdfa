ghost use Rattle.std.specs.Prelude.{IfOk};
ghost use Rattle.load_maker.specs.Artefacts.{drawn_bytes, HasEachArtefact, made_artefacts};
ghost use Rattle.load_maker.specs.Made.{Makes};

use crate::draws::Draws;
use crate::names::{asp_name, place_name};
use bench_trait::{ArtefactBook, BookError};
use byte_ports::Bytes;
use phrase_tree::NoMemory;
use std::alloc::Global;

/// The bytes of one artefact.
fn drawn_bytes(alloc: Global, draws: &mut Draws) -> Result<Bytes, NoMemory>
    ensures { Makes (λ bytes. bytes) (drawn_bytes 64 draws.old) result draws.new }
{
    let mut bytes = Vec::new(alloc);
    for _ in 0..64u32 {
        bytes.push(draws.draw(256) as u8)?;
    }
    Ok(Bytes::of(bytes))
}

/// The artefacts of a made job.
pub(crate) fn made_artefacts(alloc: Global, draws: &mut Draws) -> Result<ArtefactBook, NoMemory>
    ensures made { Makes (λ book. book) (made_artefacts 64 draws.old) result draws.new }
    ensures there { IfOk result HasEachArtefact }
{
    let mut book = ArtefactBook::empty(alloc);
    for number in 0..64 {
        let bytes = drawn_bytes(alloc, draws)?;
        match book.add(place_name(number / 8), asp_name(number % 8), bytes) {
            Ok(()) => {}
            Err(BookError::Repeated { .. }) => unreachable!(),
            Err(BookError::NoMemory) => return Err(NoMemory),
        }
    }
    Ok(book)
}
