ghost use Rattle.std.specs.Prelude.{◌≡◌, ℕ, List, [], ◌∷◌, ◌++◌, Err, IfOk, IsErr, OnErr, OnOk, false};
ghost use Rattle.evidence_types.specs.Shape.{Form, form};
ghost use Rattle.place_check.specs.declared.entry.PlaceEntry.{PlaceEntry};
ghost use Rattle.appraiser.specs.Appraised.{CanAppraise, basis_of};
ghost use Rattle.appraiser.specs.Expected.{Basis};
ghost use Rattle.stream_appraiser.specs.Stream.{Appraises};

use crate::error::StreamError;
use crate::forms::Forms;
use crate::seals::OpenSeals;
use crate::walk::Walk;
use appraiser::{Given, Verdicts};
use evidence_codec::{Fault, Reader};
use evidence_types::Shape;
use phrase_tree::NoMemory;
use place_check::Places;
use reference_book::References;
use std::alloc::Global;

fn bad(first: Fault) -> StreamError
    ensures { result ≡ StreamError.Bad first.at first.kind }
{
    StreamError::Bad {
        at: first.at,
        kind: first.kind,
    }
}

/// Appraises a bundle of either version that comes in pieces. It holds the bytes of one head, at most 1,032; a
/// digest for each seal that is open; the answers of the value, each in about a kilobyte; the parts of the shape
/// that are to come; and the verdicts so far. Bytes that are no bundle cost no more than that.
#[derive(Drop)]
pub struct StreamAppraiser<'a> {
    given: Given<'a>,
    reader: Reader,
    walk: Walk<'a>,
    alloc: Global,
    starved: bool,
}

impl<'a> StreamAppraiser<'a> {
    ghost use Rattle.stream_appraiser.specs.Fed.{Fed, Goes, HasStarved, IsReady};

    /// An appraiser by a shape, with references, between places, of a session with a nonce.
    pub fn open(
        alloc: Global,
        shape: &'a Shape,
        references: &'a References,
        places: &'a Places,
        nonce: &'a [u8; 16],
    ) -> Result<StreamAppraiser<'a>, NoMemory>
        requires { CanAppraise (basis_of places.now references.now nonce.now) (form shape.now) }
        ensures ready { IfOk result (λ made. IsReady made) }
        ensures fed { IfOk result (λ made. Fed places.now (basis_of places.now references.now nonce.now) (form shape.now) [] made) }
    {
        let mut forms = Forms::none(alloc);
        forms.push(shape)?;
        Ok(StreamAppraiser {
            given: Given {
                places,
                references,
                nonce,
            },
            reader: Reader::open(true),
            walk: Walk {
                forms,
                seals: OpenSeals::none(alloc),
                found: Vec::new(alloc),
                held: Vec::new(alloc),
                number: 0,
                misfit: None,
            },
            alloc,
            starved: false,
        })
    }

    /// Takes one more byte.
    fn take(&mut self, byte: u8) -> Result<(), NoMemory>
        requires { Goes self.old }
        ensures goes { OnOk result (Goes self.new) }
        ensures starved { self.new.starved ≡ self.old.starved }
        ensures fed { OnOk result ((places : List PlaceEntry) (basis : Basis) (shape : Form) (bytes : List ℕ) →
            Fed places basis shape bytes self.old → Fed places basis shape (bytes ++ byte ∷ []) self.new) }
    {
        self.reader.take(byte);
        match self.reader.head() {
            Some(head) => self.walk.take(self.alloc, &self.given, &head),
            None => Ok(()),
        }
    }

    /// Takes the next piece of the bundle. After an error, which is want of memory, each later call answers the
    /// same. Each seal that is open costs time in the bytes that it is over.
    pub fn feed(&mut self, piece: &[u8]) -> Result<(), NoMemory>
        requires { IsReady self.old }
        ensures ready { IsReady self.new }
        ensures fed { OnOk result ((places : List PlaceEntry) (basis : Basis) (shape : Form) (bytes : List ℕ) →
            Fed places basis shape bytes self.old → Fed places basis shape (bytes ++ piece.now) self.new) }
        ensures starved { OnErr result (HasStarved self.new) }
        ensures stays { HasStarved self.old → IsErr result }
    {
        if self.starved {
            return Err(NoMemory);
        }
        for byte in piece {
            match self.take(*byte) {
                Ok(()) => {}
                Err(_) => {
                    self.starved = true;
                    return Err(NoMemory);
                }
            }
        }
        Ok(())
    }

    /// What all pieces came to: the verdicts of the value whose bundle they are, the first fault if they are no
    /// bundle, or else the first node that does not fit.
    pub fn finish(self) -> Result<Verdicts, StreamError>
        requires { IsReady self }
        ensures appraised { (places : List PlaceEntry) (basis : Basis) (shape : Form) (bytes : List ℕ) →
            Fed places basis shape bytes self.entry → Appraises places basis bytes shape result }
        ensures starved { HasStarved self.entry → result ≡ Err StreamError.NoMemory }
    {
        if self.starved {
            return Err(StreamError::NoMemory);
        }
        if let Err(first) = self.reader.finish() {
            return Err(bad(first));
        }
        match self.walk.misfit {
            Some(node) => Err(StreamError::WrongShape { node }),
            None => Ok(Verdicts::of(self.walk.found)),
        }
    }
}
