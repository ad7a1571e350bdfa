ghost use Rattle.std.specs.Prelude.{ℕ, ◌≡◌, ◌≤◌, ◌↔◌, ◌+◌, length, IfOk, Err, nat_lt};
ghost use Rattle.phrase_tree.specs.Term.{Term, term};
ghost use Rattle.phrase_tree.specs.Numbering.{IsSized};
ghost use Rattle.phrase_reader.specs.declared.refusal.Kind.{Kind};
ghost use Rattle.phrase_reader.specs.Tokens.{found};
ghost use Rattle.phrase_reader.specs.Refusal.{IsRefusal, IsRead, token_events};
ghost use Rattle.phrase_reader.specs.Answer.{AnswersWith, UnlessNoMemory};
ghost use Rattle.phrase_reader.specs.Machine.{start, finished, unfit, step, limit, verdict, state_of};
ghost use Rattle.phrase_reader.specs.Reading.{Reads, Accepts, AcceptsCount, Finishes, stopped};

use crate::piece::{Piece, find};
use crate::refusal::{Kind, ReadError};
use crate::state::{State, Stop};
use crate::token::Token;
use phrase_tree::{EVENTS, Phrase};
use std::alloc::Global;

/// The greatest length of a text, in bytes.
pub const TEXT_BYTES: usize = 65_536;

/// What was read of a text, how many events it counts, and why a token that doesn't fit is refused.
#[derive(Debug, Drop)]
pub struct Reader {
    pub state: State,
    pub events: u32,
    pub unfit: Kind,
}

fn unfit(state: &State) -> Kind
    ensures { result ≡ unfit (finished (state_of state.now)) }
{
    if state.is_finished() {
        return Kind::Trailing;
    }
    Kind::Expected
}

fn stopped(stop: Stop, unfit: Kind, place: u32) -> ReadError
    ensures { result ≡ stopped stop unfit place }
{
    match stop {
        Stop::Unfit => ReadError::Refused {
            at: place,
            kind: unfit,
        },
        Stop::Limit(kind) => ReadError::Refused { at: place, kind },
        Stop::Memory => ReadError::NoMemory,
    }
}

impl Reader {
    /// Takes a count of events that is within the limit.
    fn count(&mut self, events: u32, place: u32) -> Result<(), ReadError>
        ensures { AcceptsCount (state_of self.old.state) events place self.new result }
    {
        if events > EVENTS {
            return Err(ReadError::Refused {
                at: place,
                kind: Kind::TooManyEvents,
            });
        }
        self.unfit = unfit(&self.state);
        self.events = events;
        Ok(())
    }

    /// Takes a token. After an error the reader is not used again.
    fn accept(&mut self, alloc: Global, token: Token, place: u32) -> Result<(), ReadError>
        requires few { self.old.events ≤ EVENTS }
        requires ready { self.old.unfit ≡ unfit (finished (state_of self.old.state)) }
        ensures { Accepts (state_of self.old.state) self.old.events token place self.new result }
    {
        let events = self.events + token.events();
        let unfit = self.unfit;
        match self.state.push(alloc, token) {
            Ok(()) => self.count(events, place),
            Err(stop) => Err(stopped(stop, unfit, place)),
        }
    }

    fn finish(self, alloc: Global, place: u32) -> Result<Phrase, ReadError>
        ensures { Finishes (state_of self.state) place result }
    {
        let Ok(phrase) = self.state.phrase(alloc) else {
            return Err(ReadError::NoMemory);
        };
        match phrase {
            Some(phrase) => Ok(phrase),
            None => Err(ReadError::Refused {
                at: place,
                kind: Kind::Expected,
            }),
        }
    }
}

fn read_bytes(alloc: Global, text: &[u8]) -> Result<Phrase, ReadError>
    requires { length text.now ≤ TEXT_BYTES }
    ensures { Reads result (found 0 0 text.now) }
{
    let mut reader = Reader {
        state: State::new(alloc),
        events: 0,
        unfit: Kind::Expected,
    };
    let mut offset = 0;
    'tokens: loop {
        match find(text, offset) {
            Piece::Token(token, start, next) => {
                match reader.accept(alloc, token, start as u32) {
                    Ok(()) => offset = next,
                    Err(error) => return Err(error),
                }
            }
            Piece::Refused(kind, place) => {
                return Err(ReadError::Refused {
                    at: place as u32,
                    kind,
                });
            }
            Piece::End(place) => return reader.finish(alloc, place as u32),
        }
    }
}

/// Reads the text of a phrase. The answer is a phrase exactly when the text has no refusal and its
/// tokens spell that phrase; it has at most 2,048 events and 64 open brackets. Otherwise it is the
/// first refusal of the text, with its offset in bytes, or want of memory. The bytes are read once,
/// with a stack of open brackets, in time linear in the text.
pub fn read(alloc: Global, text: &str) -> Result<Phrase, ReadError>
    ensures found { (phrase : Term) → UnlessNoMemory result (AnswersWith result phrase ↔ IsRead text.now phrase) }
    ensures refused { (place : ℕ) (kind : Kind) → UnlessNoMemory result ((result ≡ Err (ReadError.Refused place kind)) ↔ IsRefusal text.now place kind) }
    ensures sized { IfOk result (λ phrase. IsSized (term phrase)) }
{
    let bytes = text.as_bytes();
    if bytes.len() > TEXT_BYTES {
        return Err(ReadError::Refused {
            at: TEXT_BYTES as u32,
            kind: Kind::TooLong,
        });
    }
    read_bytes(alloc, bytes)
}
