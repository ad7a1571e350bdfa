ghost use Rattle.std.specs.Prelude.{◌≡◌, ◌≤◌, IfOk, IfSome};
ghost use Rattle.phrase_tree.specs.Term.{term};
ghost use Rattle.phrase_tree.specs.Numbering.{event_count};
ghost use Rattle.place_check.specs.Session.{IsCheckedAgainst, session_of};
ghost use Rattle.session_core.specs.Session.{IsAwaited};

use super::*;
use crate::run_table::{ORDERS, RUNS};
use avm_code::BlockName;
use bench_trait::{AskKind, BenchFault};
use phrase_tree::{Args, Asp, Name, Names, Phrase, Split, Trace};
use place_check::{PlaceEntry, check};
use seal_hmac::Key;
use session_runs::flight_law;
use session_tables::results_law;
use std::process::Abort;
use std::test::Fail;

const NONCE: [u8; 16] = [0, 1, 2, 3, 4, 5, 6, 7, 8, 9, 10, 11, 12, 13, 14, 15];

/// The places, each of which may ask and see all of them, and what each offers.
const PLACES: [&str; 4] = ["bank", "q", "us", "ks"];

const OFFERS: [&str; 3] = ["a", "b", "scan"];

/// A bench of which nothing is known, so that a test may record what it likes.
#[derive(Drop)]
struct AnyBench;

impl Bench for AnyBench {
    ghost gives = { λ bench artefacts ask bytes. Unit {0} };

    ghost fails = { λ bench artefacts ask fault. Unit {0} };

    ghost starves = { λ bench artefacts ask. Unit {0} };

    fn measure(&self, artefacts: &ArtefactBook, ask: &Ask) -> Result<Answer, MeasureError> {
        let _ = artefacts;
        let _ = ask;
        Err(MeasureError::NoMemory)
    }
}

fn name(rt: &impl Abort, text: &str) -> Name {
    Name::read(text).expect(rt, "a name")
}

fn names(rt: &impl Abort, alloc: Global, texts: &[&str]) -> Result<Names, Fail> {
    let mut found = Vec::new(alloc);
    for text in texts {
        found.push(name(rt, text))?;
    }
    Ok(Names::of(found))
}

/// The places, the first with a key of sixteen times 1, the second of 2, and so on.
fn four_places(rt: &impl Abort, alloc: Global) -> Result<Places, Fail> {
    let mut entries = Vec::new(alloc);
    let mut key: u8 = 0;
    for text in PLACES {
        key = key.wrapping_add(1);
        entries.push(PlaceEntry {
            name: name(rt, text),
            key: Key::read(&[key; 16]).expect(rt, "a key"),
            asks: names(rt, alloc, &PLACES)?,
            sees: names(rt, alloc, &PLACES)?,
            offers: names(rt, alloc, &OFFERS)?,
        })?;
    }
    assert!(rt; entries.len() == 4);
    Ok(Places::of(alloc, entries)?)
}

/// A phrase, which has at most so many events.
#[derive(Drop)]
struct Part {
    phrase: Phrase,
    size: u32,
    ghost events: { event_count (term phrase) ≤ size },
}

/// The leaf of a letter.
fn leaf(rt: &impl Abort, alloc: Global, code: u8) -> Result<Part, Fail> {
    let asp = |text| Asp {
        name: name(rt, text),
        args: Args::none(),
    };
    let phrase = match code {
        b'C' => Phrase::Cpy,
        b'S' => Phrase::Sig,
        b'H' => Phrase::Hsh,
        b'N' => Phrase::Nul,
        b'a' => Phrase::usm(alloc, asp("a"))?,
        b'b' => Phrase::usm(alloc, asp("b"))?,
        b'c' => Phrase::usm(alloc, asp("scan"))?,
        b'x' => Phrase::kim(alloc, name(rt, "q"), asp("a"))?,
        b'y' => Phrase::kim(alloc, name(rt, "us"), asp("b"))?,
        _ => return Err(Fail::from("no letter of a leaf")),
    };
    Ok(Part { phrase, size: 1 })
}

/// A request to one of the places, by the digit of its index.
fn request(rt: &impl Abort, alloc: Global, code: u8, body: Part) -> Result<Part, Fail> {
    let place = match code {
        b'0' => "bank",
        b'1' => "q",
        b'2' => "us",
        _ => "ks",
    };
    if body.size > 60 {
        return Err(Fail::from("a long phrase"));
    }
    let size = body.size + 2;
    let phrase = Phrase::At(name(rt, place), Box::new(alloc, body.phrase)?);
    Ok(Part { phrase, size })
}

/// Two parts: a chain by `>`, else a branch, by a digit or sign from `4` to `;`. From `8` its arms are in
/// parallel; the least two bits say which arms begin on nothing.
fn joined(alloc: Global, code: u8, left: Part, right: Part) -> Result<Part, Fail> {
    if left.size > 30 || right.size > 30 {
        return Err(Fail::from("a long phrase"));
    }
    let size = left.size + right.size + 2;
    let first = Box::new(alloc, left.phrase)?;
    let second = Box::new(alloc, right.phrase)?;
    let split = Split {
        left: code & 2 == 0,
        right: code & 1 == 0,
    };
    let phrase = match code {
        b'>' => Phrase::Then(first, second),
        b'4'..=b'7' => Phrase::Seq(split, first, second),
        _ => Phrase::Par(split, first, second),
    };
    Ok(Part { phrase, size })
}

/// Reads one letter of a phrase over the parts before it.
fn read_letter(
    rt: &impl Abort,
    alloc: Global,
    parts: &mut Vec<Part>,
    code: u8,
) -> Result<(), Fail> {
    let part = match code {
        b'0'..=b'3' => {
            let body = parts.pop().ok_or("a request of nothing")?;
            request(rt, alloc, code, body)?
        }
        b'4'..=b';' | b'>' => {
            let right = parts.pop().ok_or("no right part")?;
            let left = parts.pop().ok_or("no left part")?;
            joined(alloc, code, left, right)?
        }
        _ => leaf(rt, alloc, code)?,
    };
    parts.push(part)?;
    Ok(())
}

/// A session at the root `bank` of a phrase in letters, each behind its parts.
fn checked_of(
    rt: &impl Abort,
    alloc: Global,
    places: &Places,
    letters: &str,
) -> Result<Checked, Fail>
    ensures { IfOk result (λ checked. IsCheckedAgainst (session_of checked) places.now) }
{
    let mut parts = Vec::new(alloc);
    for code in letters.as_bytes() {
        read_letter(rt, alloc, &mut parts, *code)?;
    }
    let Some(part) = parts.pop() else {
        return Err(Fail::from("no phrase"));
    };
    if part.size > 60 {
        return Err(Fail::from("a long phrase"));
    }
    let bank = name(rt, "bank");
    let Some(_) = places.find(bank) else {
        return Err(Fail::from("no root"));
    };
    match check(places, bank, NONCE, part.phrase) {
        Ok(checked) => Ok(checked),
        Err(_) => Err(Fail::from("a refused phrase")),
    }
}

/// The pass that asked for an event; none if the event isn't in flight.
fn asker<B: Bench>(session: &Session<'_, B>, event: u32) -> Option<u32>
    ensures { IfSome result (λ pass. IsAwaited session.now pass event) }
{
    session.legal();
    results_law();
    match session.core.book.flight(event) {
        Some(flight) => Some(flight.pass),
        None => None,
    }
}

/// Records a result by the pass that asked; none if the event isn't in flight.
fn records(
    session: &mut Session<'_, AnyBench>,
    event: u32,
    measured: Result<Answer, MeasureError>,
) -> Option<Result<(), RecordError>> {
    flight_law();
    let Some(pass) = asker(session, event) else {
        return None;
    };
    Some(session.record(pass, event, measured))
}

/// The answer to a question: the names of its place, of its target if it has one, and of its measurement.
fn answer_to(rt: &impl Abort, alloc: Global, ask: &Ask) -> Result<Answer, Fail> {
    let mut bytes = Vec::new(alloc);
    bytes.extend_from_slice(ask.place.bytes())?;
    if let AskKind::Kim(target) = ask.kind {
        bytes.extend_from_slice(target.bytes())?;
    }
    bytes.extend_from_slice(ask.asp.name.bytes())?;
    Ok(Answer::of(&bytes).expect(rt, "an answer"))
}

/// The fault of an event.
fn fault_of(event: u32) -> BenchFault {
    BenchFault::Broken((event % 1000) as u16 + 1000)
}

/// The letter of a number, counted from this one.
fn letter(first: u8, number: u32) -> u8 {
    first.wrapping_add((number % 64) as u8)
}

fn block_letter(root: u8, first: u8, block: BlockName) -> u8 {
    match block {
        BlockName::Root => root,
        BlockName::Of(number) => letter(first, number),
    }
}

fn move_letter(places: &Places, step: Move) -> u8 {
    match step {
        Move::Run(block) => block_letter(b'.', b'a', block),
        Move::Ask(block) => block_letter(b'?', b'A', block),
        Move::Deliver(place) => match places.find(place) {
            Some(index) => letter(b'0', index),
            None => b'-',
        },
    }
}

/// Counts a move if it is possible; if it isn't, it is refused.
fn tries(rt: &impl Abort, session: &mut Session<'_, AnyBench>, step: Move) -> u32 {
    if session.can(&step) {
        return 1;
    }
    assert_eq!(rt; session.play(0, step), Err(PlayError::NotNow));
    0
}

/// The number of moves of the places and of blocks below 26 that are possible; all others are refused.
fn possible_count(rt: &impl Abort, session: &mut Session<'_, AnyBench>) -> u32 {
    let mut count = tries(rt, session, Move::Run(BlockName::Root));
    count = count.wrapping_add(tries(rt, session, Move::Ask(BlockName::Root)));
    for text in PLACES {
        count = count.wrapping_add(tries(rt, session, Move::Deliver(name(rt, text))));
    }
    for number in 0..26 {
        let block = BlockName::Of(number);
        count = count.wrapping_add(tries(rt, session, Move::Run(block)));
        count = count.wrapping_add(tries(rt, session, Move::Ask(block)));
    }
    count
}

/// Appends the letters of the events in flight, a slash, and those of the possible moves.
fn tell(
    rt: &impl Abort,
    text: &mut Vec<u8>,
    places: &Places,
    session: &mut Session<'_, AnyBench>,
) -> Result<(), Fail> {
    let asks = session.asked_count();
    for index in 0..asks {
        let ask = session.nth_asked(index).expect(rt, "an ask");
        assert_eq!(rt; ask.nonce, NONCE);
        text.push(letter(b'A', ask.event))?;
    }
    assert!(rt; session.nth_asked(asks).is_none());
    text.push(b'/')?;
    let moves = session.move_count();
    for index in 0..moves {
        let step = session.nth_move(index).expect(rt, "a move");
        assert!(rt; session.can(&step));
        text.push(move_letter(places, step))?;
    }
    assert!(rt; session.nth_move(moves).is_none());
    assert_eq!(rt; possible_count(rt, session), moves);
    Ok(())
}

/// The index of a candidate by its code: a digit, or a letter for an ask that fails or starves.
fn index_of(code: u8) -> u32 {
    let first = match code {
        b'a'..=b'z' => b'a',
        b'A'..=b'Z' => b'A',
        _ => b'0',
    };
    code.wrapping_sub(first) as u32
}

/// What is recorded for an ask by the code of a step: a fault for a small letter, want of memory for a
/// capital, else its answer.
fn measured(
    rt: &impl Abort,
    alloc: Global,
    code: u8,
    ask: &Ask,
) -> Result<Result<Answer, MeasureError>, Fail> {
    match code {
        b'a'..=b'z' => Ok(Err(MeasureError::Fault(fault_of(ask.event)))),
        b'A'..=b'Z' => Ok(Err(MeasureError::NoMemory)),
        _ => Ok(Ok(answer_to(rt, alloc, ask)?)),
    }
}

/// Takes the candidate at an index: the asks in flight come first, and then the possible moves, which are
/// made by this pass.
fn take(
    rt: &impl Abort,
    alloc: Global,
    session: &mut Session<'_, AnyBench>,
    code: u8,
    pass: u32,
) -> Result<(), Fail> {
    let index = index_of(code);
    let asks = session.asked_count();
    if index < asks {
        let ask = session.nth_asked(index).expect(rt, "an ask");
        let result = measured(rt, alloc, code, &ask)?;
        assert_eq!(rt; records(session, ask.event, result), Some(Ok(())));
        return Ok(());
    }
    let step = session.nth_move(index - asks).expect(rt, "a move");
    match session.play(pass, step) {
        Ok(Played::Moved) => assert!(rt; !matches!(step, Move::Ask(_))),
        Ok(Played::Asked(ask)) => {
            assert!(rt; matches!(step, Move::Ask(_)));
            assert_eq!(rt; asker(session, ask.event), Some(pass));
        }
        Err(_) => assert!(rt; false, "refused"),
    }
    Ok(())
}

/// The kind of an entry, by a letter, and the letter of its move or event.
fn entry_letters(places: &Places, found: Entry) -> (u8, u8) {
    match found {
        Entry::Opened => (b'o', b'-'),
        Entry::Played { step, .. } => (b'p', move_letter(places, step)),
        Entry::Answered { event, .. } => (b'd', letter(b'A', event)),
        Entry::Failed { event, .. } => (b'l', letter(b'A', event)),
        Entry::Starved { event, .. } => (b'u', letter(b'A', event)),
    }
}

/// The same of the entry that a step makes.
fn step_letters(step: &[u8]) -> Option<(u8, u8)> {
    let code = *step.first()?;
    let at = index_of(code) as usize + 1;
    let slash = step.iter().position(|one| *one == b'/')?;
    if at >= slash {
        return Some((b'p', *step.get(at + 1)?));
    }
    let kind = match code {
        b'a'..=b'z' => b'l',
        b'A'..=b'Z' => b'u',
        _ => b'd',
    };
    Some((kind, *step.get(at)?))
}

/// Appends how a session ended: `D`, `F` with the letter of the event that failed, or `S`, and its trace.
fn tell_end(
    rt: &impl Abort,
    text: &mut Vec<u8>,
    session: &Session<'_, AnyBench>,
    bundle: &str,
) -> Result<(), Fail> {
    match session.outcome() {
        Ok(Record::Done(found)) => {
            assert_eq!(rt; session.state(), State::Done);
            assert!(rt; is_hex_of(bundle, found.bundle.items()));
            text.push(b'D')?;
            tell_trace(text, &found.trace)?;
        }
        Ok(Record::Failed(found)) => {
            assert_eq!(rt; session.state(), State::Failed);
            assert_eq!(rt; found.fault, fault_of(found.event));
            text.push(b'F')?;
            text.push(letter(b'A', found.event))?;
            tell_trace(text, &found.trace)?;
        }
        Err(error) => {
            assert_eq!(rt; error, OutcomeError::NoMemory);
            assert_eq!(rt; session.state(), State::Starved);
            text.push(b'S')?;
        }
    }
    Ok(())
}

fn tell_trace(text: &mut Vec<u8>, trace: &Trace) -> Result<(), Fail> {
    for event in trace.items() {
        text.push(letter(b'A', *event))?;
    }
    Ok(())
}

/// Whether this is a text of bytes, two digits each.
fn is_hex_of(text: &str, bytes: &[u8]) -> bool {
    let digits = b"0123456789abcdef";
    let mut at: usize = 0;
    let hex = text.as_bytes();
    let mut same = hex.len() == bytes.len().wrapping_mul(2);
    for byte in bytes {
        let high = digits.get((byte >> 4) as usize);
        let low = digits.get((byte & 15) as usize);
        same = same && hex.get(at) == high && hex.get(at.wrapping_add(1)) == low;
        at = at.wrapping_add(2);
    }
    same
}

/// Each ask that is in flight behind the end of a session: its result is dropped.
fn drop_results(
    rt: &impl Abort,
    alloc: Global,
    session: &mut Session<'_, AnyBench>,
) -> Result<(), Fail> {
    for index in 0..session.asked_count() {
        let ask = session.nth_asked(index).expect(rt, "an ask");
        let result = answer_to(rt, alloc, &ask)?;
        assert_eq!(rt;
            records(session, ask.event, Ok(result)),
            Some(Err(RecordError::Ended))
        );
    }
    Ok(())
}

/// Compares what a session tells with a word of its run. A step begins with its code and then has what can
/// be taken before it; the last word begins with `=` and ends with how the session ended.
fn play_word(
    rt: &impl Abort,
    alloc: Global,
    places: &Places,
    session: &mut Session<'_, AnyBench>,
    bundle: &str,
    word: &[u8],
    count: u32,
) -> Result<(), Fail> {
    let code = *word.first().ok_or("an empty word")?;
    let mut text = Vec::new(alloc);
    text.push(code)?;
    assert_eq!(rt; session.entry_count(), count.wrapping_add(1));
    if code == b'=' {
        drop_results(rt, alloc, session)?;
        tell(rt, &mut text, places, session)?;
        tell_end(rt, &mut text, session, bundle)?;
        assert_eq!(rt; text.as_slice(), word);
        return Ok(());
    }
    tell(rt, &mut text, places, session)?;
    assert_eq!(rt; text.as_slice(), word);
    assert_eq!(rt; session.state(), State::Open);
    assert!(rt; matches!(session.outcome(), Err(OutcomeError::NotFinished)));
    take(rt, alloc, session, code, count)
}

/// Plays a run of a phrase word by word, and then compares its entries with its steps.
fn play_run(
    rt: &impl Abort,
    alloc: Global,
    places: &Places,
    letters: &str,
    bundle: &str,
    run: &str,
) -> Result<(), Fail> {
    let checked = checked_of(rt, alloc, places, letters)?;
    let artefacts = ArtefactBook::empty(alloc);
    let mut session = Session::open(alloc, &checked, places, &artefacts, &AnyBench)?;
    let mut count: u32 = 0;
    for word in run.split_whitespace() {
        play_word(
            rt,
            alloc,
            places,
            &mut session,
            bundle,
            word.as_bytes(),
            count,
        )?;
        count = count.wrapping_add(1);
    }
    compare_entries(rt, places, &session, run);
    Ok(())
}

/// Each step of a run made an entry behind the opening; the last word made none.
fn compare_entries(rt: &impl Abort, places: &Places, session: &Session<'_, AnyBench>, run: &str) {
    assert!(rt; matches!(session.nth_entry(0), Some(Entry::Opened)));
    let mut index: u32 = 0;
    for word in run.split_whitespace() {
        index = index.wrapping_add(1);
        match session.nth_entry(index) {
            Some(found) => assert_eq!(rt;
                Some(entry_letters(places, found)),
                step_letters(word.as_bytes())
            ),
            None => assert_eq!(rt; index, session.entry_count()),
        }
    }
}

/// Plays an order that begins with these choices, and takes the first candidate from where they end; adds
/// each such choice, with the number of candidates.
fn play_order(
    rt: &impl Abort,
    alloc: Global,
    places: &Places,
    checked: &Checked,
    bundle: &str,
    choices: &mut Vec<(u8, u32)>,
) -> Result<(), Fail>
    requires { IsCheckedAgainst (session_of checked.now) places.now }
{
    let artefacts = ArtefactBook::empty(alloc);
    let mut session = Session::open(alloc, checked, places, &artefacts, &AnyBench)?;
    for depth in 0..64 {
        let count = session.asked_count().wrapping_add(session.move_count());
        if count == 0 {
            return expect_done(rt, alloc, &session, bundle);
        }
        let code = choice_at(choices, depth, count)?;
        take(rt, alloc, &mut session, code, depth as u32)?;
    }
    Err(Fail::from("an order without an end"))
}

/// The code of a choice; the first candidate if there is none yet.
fn choice_at(choices: &mut Vec<(u8, u32)>, depth: usize, count: u32) -> Result<u8, Fail> {
    if let Some((index, _)) = choices.get(depth) {
        return Ok(index.wrapping_add(b'0'));
    }
    choices.push((0, count))?;
    Ok(b'0')
}

fn expect_done(
    rt: &impl Abort,
    alloc: Global,
    session: &Session<'_, AnyBench>,
    bundle: &str,
) -> Result<(), Fail> {
    let mut text = Vec::new(alloc);
    tell_end(rt, &mut text, session, bundle)?;
    assert_eq!(rt; text.first(), Some(&b'D'));
    Ok(())
}

/// The choices of the next order, or false if this was the last one.
fn go_to_next(choices: &mut Vec<(u8, u32)>) -> Result<bool, Fail> {
    for _ in 0..choices.len() {
        let Some((index, count)) = choices.pop() else {
            return Ok(false);
        };
        let next = index.wrapping_add(1);
        if (next as u32) < count {
            choices.push((next, count))?;
            return Ok(true);
        }
    }
    Ok(false)
}

/// Plays the runs of a table, and gives their number.
fn play_table(rt: &impl Abort, alloc: Global, places: &Places, table: &str) -> Result<u32, Fail> {
    let mut rest = table;
    let mut letters = "";
    let mut bundle = "";
    let mut played: u32 = 0;
    for _ in 0..table.len() {
        let Some((line, more)) = rest.split_once('\n') else {
            return Ok(played);
        };
        if let Some(phrase) = line.strip_prefix(": ") {
            (letters, bundle) = phrase.split_once(' ').ok_or("a phrase without its bundle")?;
        } else if !line.is_empty() {
            play_run(rt, alloc, places, letters, bundle, line)?;
            played = played.wrapping_add(1);
        }
        rest = more;
    }
    Ok(played)
}

// The table was written by another implementation of sessions.
#[test]
fn sessions_run_as_another_program_runs_them(rt: HostRuntime) -> Result<(), Fail> {
    let alloc = rt.alloc();
    let places = four_places(&rt, alloc)?;
    assert_eq!(&rt; play_table(&rt, alloc, &places, RUNS)?, 210);
    Ok(())
}

// The numbers of orders and the bundles were found by another implementation of sessions.
#[test]
fn every_order_ends_with_the_same_bundle(rt: HostRuntime) -> Result<(), Fail> {
    let alloc = rt.alloc();
    let places = four_places(&rt, alloc)?;
    for (letters, bundle, orders) in &ORDERS {
        let checked = checked_of(&rt, alloc, &places, letters)?;
        let mut choices = Vec::new(alloc);
        for left in 1..=*orders {
            play_order(&rt, alloc, &places, &checked, bundle, &mut choices)?;
            assert_eq!(&rt; go_to_next(&mut choices)?, left < *orders);
        }
    }
    Ok(())
}
