//! What a session tells of the messages that its moves send and need, and of the asks that its passes make.
ghost use Rattle.std.specs.Prelude.{◌≡◌, Some, IfSome};
ghost use Rattle.bench_trait.specs.Asking.{question};
ghost use Rattle.session_core.specs.Session.{session_in, IsAwaited};

use crate::fixture::{NONCE, artefact_of, bank_and_q, checked, measures, name, q_measures};
use avm_code::BlockName;
use bench_trait::{ArtefactBook, Ask, Bench, DigestBench};
use phrase_tree::Name;
use session_book::{Entry, Move, State};
use session_core::{OutcomeError, PlayError, Played, Session, Touch};
use session_model::Record;
use std::process::Abort;
use std::test::Fail;

/// The bundles of the nonce, and of the answer of event 1 on it, which is the SHA-256 of `scan`, a zero byte
/// and `s1`; made with Python's hashlib.
const REQUEST: &str = "43504c42010000001101000102030405060708090a0b0c0d0e0f";

const REPLY: &str =
    "43504c42010000003802000000010020d257cd5ed078b0a947b0b17def45b30cc3113cf2c8370e71df92c1228a7b5d7801000102030405060708090a0b0c0d0e0f";

/// The bundle of the same answer of event 0.
const OF_ONE: &str =
    "43504c42010000003802000000000020d257cd5ed078b0a947b0b17def45b30cc3113cf2c8370e71df92c1228a7b5d7801000102030405060708090a0b0c0d0e0f";

/// The one of these that a test names: the first, the second, the third, or none.
fn bundle(which: u8) -> &'static str {
    match which {
        1 => REQUEST,
        2 => REPLY,
        3 => OF_ONE,
        _ => "",
    }
}

const ROOT: BlockName = BlockName::Root;

const ZERO: BlockName = BlockName::Of(0);

/// Whether this is a text of bytes, two digits each.
fn is_hex_of(text: &str, bytes: &[u8]) -> bool {
    let digits = b"0123456789abcdef";
    let mut at: usize = 0;
    let hex = text.as_bytes();
    let mut same = hex.len() == bytes.len().wrapping_mul(2);
    for byte in bytes {
        let high = digits.get((byte >> 4) as usize);
        let low = digits.get((byte & 15) as usize);
        same = same && hex.get(at) == high && hex.get(at.wrapping_add(1)) == low;
        at = at.wrapping_add(2);
    }
    same
}

/// A pass asks; none if the move is refused, or if it asks nothing.
fn asks(session: &mut Session<'_, DigestBench>, pass: u32, step: Move) -> Option<Ask>
    ensures asked { IfSome result (λ ask. IsAwaited session.new pass ask.event) }
    ensures own { IfSome result (λ ask. question (session_in session.new.opening).phrase (session_in session.new.opening).root (session_in session.new.opening).nonce ask.event ≡ Some ask) }
    ensures opening { session.new.opening ≡ session.old.opening }
{
    session.legal();
    match session.play(pass, step) {
        Ok(told) => match told {
            Played::Moved => None,
            Played::Asked(ask) => {
                session.legal();
                Some(ask)
            }
        },
        Err(_) => None,
    }
}

/// Measures what a pass asked for, over the session's own artefacts, and records the answer.
fn answers(
    session: &mut Session<'_, DigestBench>,
    artefacts: &ArtefactBook,
    pass: u32,
    ask: &Ask,
) -> bool
    requires asked { IsAwaited session.old pass ask.now.event }
    requires own { question (session_in session.old.opening).phrase (session_in session.old.opening).root (session_in session.old.opening).nonce ask.now.event ≡ Some ask.now }
    requires over { session.old.opening.artefacts.now ≡ artefacts.now }
    ensures { session.new.opening ≡ session.old.opening }
{
    let measured = DigestBench.measure(artefacts, ask);
    match session.record(pass, ask.event, measured) {
        Ok(()) => true,
        Err(_) => false,
    }
}

/// Makes a move by a pass, which answers what it asks.
fn goes_on(
    session: &mut Session<'_, DigestBench>,
    artefacts: &ArtefactBook,
    pass: u32,
    step: Move,
) -> bool
    requires { session.old.opening.artefacts.now ≡ artefacts.now }
    ensures { session.new.opening ≡ session.old.opening }
{
    match step {
        Move::Ask(_) => match asks(session, pass, step) {
            Some(ask) => answers(session, artefacts, pass, &ask),
            None => false,
        },
        Move::Run(_) => plays(session, pass, step),
        Move::Deliver(_) => plays(session, pass, step),
    }
}

fn plays(session: &mut Session<'_, DigestBench>, pass: u32, step: Move) -> bool
    ensures { session.new.opening ≡ session.old.opening }
{
    match session.play(pass, step) {
        Ok(_) => true,
        Err(_) => false,
    }
}

/// The one possible move of a session is this, and touches and sends this.
fn stands_at(
    rt: &impl Abort,
    session: &Session<'_, DigestBench>,
    step: Move,
    touch: Touch,
    message: u8,
) -> Result<(), Fail> {
    session.legal();
    assert_eq!(rt; session.state(), State::Open);
    assert_eq!(rt; session.move_count(), 1);
    assert_eq!(rt; session.nth_move(0), Some(step));
    assert!(rt; session.nth_move(1).is_none());
    assert!(rt; session.can(&step));
    assert_eq!(rt; session.touches(&step), touch);
    match session.message(&step)? {
        Some(bytes) => assert!(rt; is_hex_of(bundle(message), bytes.items())),
        None => assert_eq!(rt; message, 0),
    }
    Ok(())
}

/// What a session just opened tells, whatever its phrase.
fn is_just_opened(rt: &impl Abort, session: &Session<'_, DigestBench>) {
    assert_eq!(rt; *session.nonce(), NONCE);
    assert_eq!(rt; session.entry_count(), 1);
    assert!(rt; matches!(session.nth_entry(0), Some(Entry::Opened)));
    assert!(rt; session.nth_entry(1).is_none());
    assert_eq!(rt; session.asked_count(), 0);
    assert!(rt; session.nth_asked(0).is_none());
    assert_eq!(rt; session.outcome().err(), Some(OutcomeError::NotFinished));
    session.has_few_entries();
}

/// A move that isn't possible is refused, and touches and sends nothing.
fn refuses(rt: &impl Abort, session: &mut Session<'_, DigestBench>, step: Move) -> Result<(), Fail>
    ensures { session.new.opening ≡ session.old.opening }
{
    assert!(rt; !session.can(&step));
    assert_eq!(rt; session.touches(&step), Touch::Nothing);
    assert!(rt; session.message(&step)?.is_none());
    assert_eq!(rt; session.play(0, step), Err(PlayError::NotNow));
    Ok(())
}

/// Each move is the only one that is possible, touches and sends what stands beside it, and is made.
fn plays_all(
    rt: &impl Abort,
    session: &mut Session<'_, DigestBench>,
    artefacts: &ArtefactBook,
    steps: &[(Move, Touch, u8)],
) -> Result<(), Fail>
    requires { session.old.opening.artefacts.now ≡ artefacts.now }
{
    for (step, touch, message) in steps {
        stands_at(rt, session, *step, *touch, *message)?;
        assert!(rt; goes_on(session, artefacts, 0, *step));
    }
    Ok(())
}

/// Only the ask of this event is in flight, and no move is possible.
fn waits_for(rt: &impl Abort, session: &Session<'_, DigestBench>, event: u32) {
    assert_eq!(rt; session.state(), State::Open);
    assert_eq!(rt; session.move_count(), 0);
    assert_eq!(rt; session.asked_count(), 1);
    match session.nth_asked(0) {
        Some(ask) => assert_eq!(rt; ask.event, event),
        None => assert!(rt; false, "no ask"),
    }
}

/// A session is done, with this bundle.
fn is_done_with(
    rt: &impl Abort,
    session: &Session<'_, DigestBench>,
    which: u8,
) -> Result<(), Fail> {
    assert_eq!(rt; session.state(), State::Done);
    assert_eq!(rt; session.move_count(), 0);
    match session.outcome() {
        Ok(Record::Done(found)) => {
            assert!(rt; is_hex_of(bundle(which), found.bundle.items()));
            Ok(())
        }
        Ok(Record::Failed(_)) => Err(Fail::from("failed")),
        Err(_) => Err(Fail::from("no record")),
    }
}

/// What a request and its reply send, move by move.
fn request_and_reply(q: Name) -> [(Move, Touch, u8); 6] {
    [
        (Move::Run(ROOT), Touch::SendsRequest(0), 1),
        (Move::Deliver(q), Touch::NeedsRequest(0), 0),
        (Move::Ask(ZERO), Touch::Nothing, 0),
        (Move::Run(ZERO), Touch::SendsReply(0), 2),
        (Move::Run(ROOT), Touch::NeedsReply(0), 0),
        (Move::Run(ROOT), Touch::Nothing, 0),
    ]
}

/// A session of `@q [USM scan]`, just opened, is played to its end.
fn sends_a_request_and_a_reply(
    rt: &impl Abort,
    session: &mut Session<'_, DigestBench>,
    artefacts: &ArtefactBook,
) -> Result<(), Fail>
    requires { session.old.opening.artefacts.now ≡ artefacts.now }
{
    is_just_opened(rt, session);
    refuses(rt, session, Move::Run(ZERO))?;
    plays_all(rt, session, artefacts, &request_and_reply(name(rt, "q")))?;
    is_done_with(rt, session, 2)
}

#[test]
fn a_request_and_its_reply_are_told_and_sent(rt: HostRuntime) -> Result<(), Fail> {
    let alloc = rt.alloc();
    let places = bank_and_q(&rt, alloc)?;
    let checked = checked(&rt, &places, "bank", NONCE, q_measures(&rt, alloc)?)?;
    let artefacts = artefact_of(&rt, alloc, "q", "scan")?;
    let mut session = Session::open(alloc, &checked, &places, &artefacts, &DigestBench)?;
    sends_a_request_and_a_reply(&rt, &mut session, &artefacts)
}

/// In a session of `USM scan`, just opened, one pass asks and answers, and another goes on.
fn is_shared_by_two_passes(
    rt: &impl Abort,
    session: &mut Session<'_, DigestBench>,
    artefacts: &ArtefactBook,
) -> Result<(), Fail>
    requires { session.old.opening.artefacts.now ≡ artefacts.now }
{
    let Some(ask) = asks(session, 0, Move::Ask(ROOT)) else {
        return Err(Fail::from("no ask"));
    };
    waits_for(rt, session, ask.event);
    assert!(rt; answers(session, artefacts, 0, &ask));
    assert!(rt; plays(session, 1, Move::Run(ROOT)));
    is_done_with(rt, session, 3)
}

#[test]
fn a_pass_waits_while_another_measures(rt: HostRuntime) -> Result<(), Fail> {
    let alloc = rt.alloc();
    let places = bank_and_q(&rt, alloc)?;
    let checked = checked(&rt, &places, "q", NONCE, measures(&rt, alloc, "scan")?)?;
    let artefacts = artefact_of(&rt, alloc, "q", "scan")?;
    let mut session = Session::open(alloc, &checked, &places, &artefacts, &DigestBench)?;
    is_shared_by_two_passes(&rt, &mut session, &artefacts)
}
