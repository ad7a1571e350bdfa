//! Playing one entry of a transcript again.

ghost use Rattle.std.specs.Prelude.{◌≡◌, ◌<◌, None, Some, length, slice_set};
ghost use Rattle.std.specs.Option.{option_map};
ghost use Rattle.bench_trait.specs.declared.ask.Ask.{Ask as Question};
ghost use Rattle.bench_trait.specs.Asking.{question};
ghost use Rattle.bench_trait.specs.Bench.{MatchMeasured};
ghost use Rattle.session_runs.specs.Standing.{is_open, played, Standing};
ghost use Rattle.session_core.specs.Reading.{result_entry};
ghost use Rattle.session_core.specs.Session.{with_entry, session_in, StandsAt, IsAwaited};
ghost use Rattle.session_book.specs.Entries.{move_of};
ghost use Rattle.transcript.specs.Written.{entry_in};
ghost use Rattle.transcript.specs.Flights.{Mirrors, IsAwaiting};
ghost use Rattle.transcript.specs.Audit.{IsReplayed, Replays, RepeatsResult, HasRoomFor, Keeps, is_same, HaltsAs};

use crate::flights::{Flight, asked, clear, note};
use crate::written::Written;
use bench_trait::{ArtefactBook, Ask, Bench, BenchFault, MeasureError};
use evidence_types::Answer;
use session_book::{Move, State};
use session_core::{Played, Session};
use session_runs::{ask_law, flight_law, listing_law, result_law};

/// Why an entry wasn't played again.
#[derive(Debug, Drop)]
pub enum Halt {
    /// It can't come next.
    Illegal,
    /// The bench gives this at its question.
    Differs(Result<Answer, BenchFault>),
    NoMemory,
}

/// Plays the next entry of a transcript again.
pub(crate) fn replay<B: Bench>(
    session: &mut Session<'_, B>,
    flights: &mut Vec<Option<Flight>>,
    artefacts: &ArtefactBook,
    bench: &B,
    entry: &Written<'_>,
) -> Result<(), Halt>
    requires over { IsReplayed artefacts.now bench.now session.old }
    requires mirrors { Mirrors flights.old.items session.old }
    ensures { Replays
        (λ ask answer. B.gives bench.now artefacts.now ask answer)
        (λ ask fault. B.fails bench.now artefacts.now ask fault)
        (entry_in entry.now)
        flights.new.items
        session.old
        session.new
        result }
{
    match entry {
        Written::Played { pass, step } => play(session, flights, artefacts, bench, *pass, *step),
        Written::Answered {
            pass,
            event,
            answer,
        } => repeat(
            session,
            flights,
            artefacts,
            bench,
            *pass,
            *event,
            Ok(answer),
        ),
        Written::Failed { pass, event, fault } => {
            repeat(
                session,
                flights,
                artefacts,
                bench,
                *pass,
                *event,
                Err(*fault),
            )
        }
    }
}

/// Makes a move again, if it is possible.
fn play<B: Bench>(
    session: &mut Session<'_, B>,
    flights: &mut Vec<Option<Flight>>,
    artefacts: &ArtefactBook,
    bench: &B,
    pass: u32,
    step: Move,
) -> Result<(), Halt>
    requires over { IsReplayed artefacts.now bench.now session.old }
    requires mirrors { Mirrors flights.old.items session.old }
    ensures { Replays
        (λ ask answer. B.gives bench.now artefacts.now ask answer)
        (λ ask fault. B.fails bench.now artefacts.now ask fault)
        (played pass (move_of step))
        flights.new.items
        session.old
        session.new
        result }
{
    listing_law();
    ask_law();
    session.legal();
    match session.play(pass, step) {
        Ok(played) => {
            session.legal();
            keep(flights, pass, played);
            Ok(())
        }
        Err(_) => Err(Halt::Illegal),
    }
}

/// Keeps the ask of a move that asked.
fn keep(flights: &mut Vec<Option<Flight>>, pass: u32, played: Played)
    requires { HasRoomFor flights.old.items played }
    ensures { Keeps pass played flights.old.items flights.new.items }
{
    match played {
        Played::Moved => {}
        Played::Asked(ask) => note(flights, pass, ask),
    }
}

/// Measures again what was asked, and takes the result if it is the one that was written.
fn repeat<B: Bench>(
    session: &mut Session<'_, B>,
    flights: &mut Vec<Option<Flight>>,
    artefacts: &ArtefactBook,
    bench: &B,
    pass: u32,
    event: u32,
    written: Result<&[u8], BenchFault>,
) -> Result<(), Halt>
    requires over { IsReplayed artefacts.now bench.now session.old }
    requires mirrors { Mirrors flights.old.items session.old }
    ensures { Replays
        (λ ask answer. B.gives bench.now artefacts.now ask answer)
        (λ ask fault. B.fails bench.now artefacts.now ask fault)
        (RepeatsResult pass event written.entry)
        flights.new.items
        session.old
        session.new
        result }
{
    result_law();
    flight_law();
    session.legal();
    match awaited(session, flights, pass, event) {
        Some(ask) => {
            let measured = bench.measure(artefacts, ask);
            if is_same(&measured, &written) {
                take(session, flights, pass, event, measured);
                Ok(())
            } else {
                Err(unlike(measured))
            }
        }
        None => Err(Halt::Illegal),
    }
}

/// The question of an event that this pass asked, while the session is open; none exactly if it has no such
/// ask in flight.
fn awaited<'f, B: Bench>(
    session: &Session<'_, B>,
    flights: &'f [Option<Flight>],
    pass: u32,
    event: u32,
) -> Option<&'f Ask>
    requires { Mirrors flights.now session.now }
    ensures { (standing : Standing) → StandsAt session.now standing →
        IsAwaiting (session_in session.now.opening) standing pass event (option_map (λ ask. ask.now) result) }
{
    match session.state() {
        State::Open => asked(flights, pass, event),
        State::Done => None,
        State::Failed => None,
        State::Starved => None,
    }
}

/// Takes a result for an ask in flight of an open session.
fn take<B: Bench>(
    session: &mut Session<'_, B>,
    flights: &mut Vec<Option<Flight>>,
    pass: u32,
    event: u32,
    measured: Result<Answer, MeasureError>,
)
    requires asked { IsAwaited session.old pass event }
    requires opened { (standing : Standing) × StandsAt session.old standing × (standing.state ≡ is_open) }
    requires measured { (ask : Question) × (question (session_in session.old.opening).phrase (session_in session.old.opening).root (session_in session.old.opening).nonce event ≡ Some ask) × MatchMeasured
        measured
        (B.gives session.old.opening.bench.now session.old.opening.artefacts.now ask)
        (B.fails session.old.opening.bench.now session.old.opening.artefacts.now ask)
        (B.starves session.old.opening.bench.now session.old.opening.artefacts.now ask) }
    requires within { event < length flights.old.items }
    ensures session { session.new ≡ with_entry (result_entry pass event measured) session.old }
    ensures flights { flights.new.items ≡ slice_set flights.old.items event None }
{
    match session.record(pass, event, measured) {
        Ok(()) => clear(flights, event),
        Err(_) => unreachable!(),
    }
}

/// Whether a result is the one that was written.
fn is_same(measured: &Result<Answer, MeasureError>, written: &Result<&[u8], BenchFault>) -> bool
    ensures { result ≡ is_same measured.now written.now }
{
    match measured {
        Ok(answer) => match written {
            Ok(bytes) => answer.bytes() == *bytes,
            Err(_) => false,
        },
        Err(wanted) => match wanted {
            MeasureError::Fault(fault) => match written {
                Ok(_) => false,
                Err(other) => fault == other,
            },
            MeasureError::NoMemory => false,
        },
    }
}

/// What a result that isn't the one that was written comes to.
fn unlike(measured: Result<Answer, MeasureError>) -> Halt
    ensures { HaltsAs measured result }
{
    match measured {
        Ok(answer) => Halt::Differs(Ok(answer)),
        Err(wanted) => match wanted {
            MeasureError::Fault(fault) => Halt::Differs(Err(fault)),
            MeasureError::NoMemory => Halt::NoMemory,
        },
    }
}
