ghost use Rattle.std.specs.Prelude.{◌≡◌, ◌≤◌, ◌+◌, ◌*◌, true, false, IfOk};
ghost use Rattle.phrase_tree.specs.Term.{term, at, is_branch, is_leaf};
ghost use Rattle.phrase_tree.specs.Numbering.{IsSized, depth, event_count};
ghost use Rattle.evidence_types.specs.Bytes.{FitsBundle};
ghost use Rattle.evidence_types.specs.Evidence.{evidence};
ghost use Rattle.place_check.specs.Session.{IsCheckedAgainst, session_of};

use super::*;
use crate::digesting::hash_over;
use crate::tests::{
    COUNTED, answer, asp, hashed, in_parallel, in_sequence, name, paired, sealed, then,
};
use bench_trait::{ArtefactBook, BenchFault, DigestBench, TableBench, TableResult, TableRow};
use byte_ports::Bytes;
use evidence_types::{Answers, Value};
use phrase_tree::{BRACKETS, EVENTS, Name, Names, NoMemory, Phrase, Split};
use place_check::{Checked, PlaceEntry, Places, check, checked_session_has_keys};
use seal_hmac::Key;
use std::alloc::Global;
use std::process::Abort;
use std::test::Fail;

/// What a row of a table says.
#[derive(Clone, Copy)]
enum Said {
    Gives(&'static [u8]),
    Fails(BenchFault),
    Starves,
}

/// What must be gathered.
#[derive(Clone, Copy)]
enum Wanted {
    /// One answer alone, of this event.
    One(u32, &'static [u8]),
    /// This many answers.
    Many(usize),
    Failed(u32, BenchFault),
    NoMemory,
}

fn table(rt: &impl Abort, alloc: Global, said: &[(u32, Said)]) -> Result<TableBench, NoMemory> {
    let mut rows = Vec::new(alloc);
    for (event, says) in said {
        let outcome = match *says {
            Said::Gives(bytes) => TableResult::Answer(answer(rt, bytes)),
            Said::Fails(fault) => TableResult::Fault(fault),
            Said::Starves => TableResult::Starve,
        };
        rows.push(TableRow {
            nonce: COUNTED,
            event: *event,
            outcome,
        })?;
    }
    Ok(TableBench::of(rows))
}

fn is_wanted(gathered: Result<Gathered, NoMemory>, wanted: Wanted) -> bool {
    match gathered {
        Ok(Gathered::All(answers)) => are_wanted(&answers, wanted),
        Ok(Gathered::Failed { event, fault }) => match wanted {
            Wanted::Failed(at, why) => at == event && why == fault,
            _ => false,
        },
        Err(NoMemory) => matches!(wanted, Wanted::NoMemory),
    }
}

fn are_wanted(answers: &Answers, wanted: Wanted) -> bool {
    let pairs = answers.items();
    match wanted {
        Wanted::Many(count) => pairs.len() == count,
        Wanted::One(event, bytes) => match pairs {
            [pair] => pair.0 == event && pair.1.bytes() == bytes,
            _ => false,
        },
        _ => false,
    }
}

fn asked(alloc: Global, place: Name, body: Phrase) -> Result<Phrase, NoMemory>
    ensures { IfOk result (λ phrase. term phrase ≡ at place (term body)) }
{
    Ok(Phrase::At(place, Box::new(alloc, body)?))
}

/// `@q [USM scan -> SIG]`.
fn sealed_at_q(rt: &impl Abort, alloc: Global) -> Result<Phrase, NoMemory>
    ensures { IfOk result (λ phrase. IsSized (term phrase)) }
{
    let body = then(alloc, Phrase::usm(alloc, asp(rt, "scan"))?, Phrase::Sig)?;
    asked(alloc, name(rt, "q"), body)
}

/// `@q [@bank [@q [CPY]]]`.
fn asked_and_asked(rt: &impl Abort, alloc: Global) -> Result<Phrase, NoMemory>
    ensures { IfOk result (λ phrase. IsSized (term phrase)) }
{
    let inner = asked(alloc, name(rt, "q"), Phrase::Cpy)?;
    let middle = asked(alloc, name(rt, "bank"), inner)?;
    asked(alloc, name(rt, "q"), middle)
}

/// `USM a -> USM b -> USM scan`.
fn three(rt: &impl Abort, alloc: Global) -> Result<Phrase, NoMemory>
    ensures { IfOk result (λ phrase. IsSized (term phrase)) }
{
    let a = Phrase::usm(alloc, asp(rt, "a"))?;
    let b = Phrase::usm(alloc, asp(rt, "b"))?;
    let first = then(alloc, a, b)?;
    then(alloc, first, Phrase::usm(alloc, asp(rt, "scan"))?)
}

/// `SIG` this many times and once more, joined by ` -> `.
fn seals(alloc: Global, more: u32) -> Result<Phrase, NoMemory>
    requires { more ≤ 1023 }
    ensures sized { IfOk result (λ phrase. IsSized (term phrase)) }
    ensures events { IfOk result (λ phrase. event_count (term phrase) ≡ more + 1) }
    ensures flat { IfOk result (λ phrase. depth (term phrase) ≡ 0) }
    ensures no_branch { IfOk result (λ phrase. is_branch (term phrase) ≡ false) }
{
    let mut phrase = Phrase::Sig;
    for count in 0..more {
        phrase = then(alloc, phrase, Phrase::Sig)?;
    }
    Ok(phrase)
}

/// `SIG` 1,020 times, and then `(CPY +<+ CPY)`.
fn copied_seals(alloc: Global) -> Result<Phrase, NoMemory>
    ensures { IfOk result (λ phrase. IsSized (term phrase)) }
{
    let all = Split {
        left: true,
        right: true,
    };
    let chain = seals(alloc, 1019)?;
    let branch = in_sequence(alloc, all, Phrase::Cpy, Phrase::Cpy)?;
    then(alloc, chain, branch)
}

/// `CPY` so many times and once more, in so many requests to the bank, each in one to q.
fn copies(rt: &impl Abort, alloc: Global, more: u32, requests: u32) -> Result<Phrase, NoMemory>
    requires few { 1 + more + 4 * requests ≤ EVENTS }
    requires nested { 2 * requests ≤ BRACKETS }
    ensures { IfOk result (λ phrase. IsSized (term phrase)) }
{
    let mut phrase = Phrase::Cpy;
    for count in 0..more {
        phrase = then(alloc, phrase, Phrase::Cpy)?;
    }
    for open in 0..requests {
        let inner = asked(alloc, name(rt, "bank"), phrase)?;
        phrase = asked(alloc, name(rt, "q"), inner)?;
    }
    Ok(phrase)
}

/// The next of numbers that look drawn.
fn draw(state: &mut u32) -> u32 {
    *state = state.wrapping_mul(1_664_525).wrapping_add(1_013_904_223);
    *state >> 16
}

/// A phrase of one event.
fn drawn_leaf(rt: &impl Abort, alloc: Global, drawn: u32) -> Result<Phrase, NoMemory>
    ensures { IfOk result (λ phrase. is_leaf (term phrase) ≡ true) }
{
    match drawn % 6 {
        0 => Ok(Phrase::Cpy),
        1 => Ok(Phrase::Hsh),
        2 => Ok(Phrase::Nul),
        3 => Phrase::usm(alloc, asp(rt, "scan")),
        _ => Ok(Phrase::Sig),
    }
}

/// A phrase and a leaf, joined in one of the ways there are; or the phrase in two requests.
fn grown(
    rt: &impl Abort,
    alloc: Global,
    drawn: u32,
    phrase: Phrase,
    leaf: Phrase,
) -> Result<Phrase, NoMemory>
    requires { is_leaf (term leaf) ≡ true }
    ensures events { IfOk result (λ grown. event_count (term grown) ≤ event_count (term phrase) + 4) }
    ensures nesting { IfOk result (λ grown. depth (term grown) ≤ depth (term phrase) + 2) }
{
    let split = Split {
        left: drawn & 8 == 0,
        right: drawn & 16 == 0,
    };
    match drawn % 8 {
        0 => {
            let inner = asked(alloc, name(rt, "bank"), phrase)?;
            asked(alloc, name(rt, "q"), inner)
        }
        1 | 2 => then(alloc, phrase, leaf),
        3 => then(alloc, leaf, phrase),
        4 => in_sequence(alloc, split, phrase, leaf),
        5 => in_sequence(alloc, split, leaf, phrase),
        6 => in_parallel(alloc, split, phrase, leaf),
        _ => in_parallel(alloc, split, leaf, phrase),
    }
}

/// A phrase that grew 15 times by what is drawn.
fn drawn_phrase(rt: &impl Abort, alloc: Global, state: &mut u32) -> Result<Phrase, NoMemory>
    ensures { IfOk result (λ phrase. IsSized (term phrase)) }
{
    let mut phrase = drawn_leaf(rt, alloc, draw(state))?;
    for step in 0..15u32 {
        let leaf = drawn_leaf(rt, alloc, draw(state))?;
        phrase = grown(rt, alloc, draw(state), phrase, leaf)?;
    }
    Ok(phrase)
}

fn entry(
    rt: &impl Abort,
    alloc: Global,
    text: &str,
    key: &[u8],
    peer: &str,
    offers: &[&str],
) -> Result<PlaceEntry, Fail> {
    let mut offered = Vec::new(alloc);
    for offer in offers {
        offered.push(name(rt, offer))?;
    }
    Ok(PlaceEntry {
        name: name(rt, text),
        key: Key::read(key).expect(rt, "a key"),
        asks: Names::of(vec![in alloc; name(rt, peer)]?),
        sees: Names::of(vec![in alloc; name(rt, peer)]?),
        offers: Names::of(offered),
    })
}

/// The bank and q, which ask each other.
fn two_places(rt: &impl Abort, alloc: Global) -> Result<Places, Fail> {
    let of_q: [u8; 16] = [
        16, 17, 18, 19, 20, 21, 22, 23, 24, 25, 26, 27, 28, 29, 30, 31,
    ];
    let bank = entry(rt, alloc, "bank", &COUNTED, "q", &["scan", "a", "b"])?;
    let q = entry(rt, alloc, "q", &of_q, "bank", &["scan"])?;
    Ok(Places::of(alloc, vec![in alloc; bank, q]?)?)
}

/// The value of a checked session, which can be written as a bundle.
fn value_for(
    alloc: Global,
    places: &Places,
    checked: &Checked,
    answers: &Answers,
) -> Result<Value, NoMemory>
    requires { IsCheckedAgainst (session_of checked.now) places.now }
    ensures { IfOk result (λ value. FitsBundle (evidence value)) }
{
    checked_session_has_keys(places, checked);
    events_have_the_keys_of_seals();
    let phrase = checked.phrase();
    eval(
        alloc,
        phrase,
        checked.root(),
        checked.nonce(),
        answers,
        places.keys(),
    )
}

/// The bundle of a checked session.
fn bundle_for(
    alloc: Global,
    places: &Places,
    checked: &Checked,
    answers: &Answers,
) -> Result<Bytes, NoMemory>
    requires { IsCheckedAgainst (session_of checked.now) places.now }
{
    checked_session_has_keys(places, checked);
    events_have_the_keys_of_seals();
    let phrase = checked.phrase();
    eval_bundle(
        alloc,
        phrase,
        checked.root(),
        checked.nonce(),
        answers,
        places.keys(),
    )
}

/// Whether a bundle has its head, and a value of this hash.
fn holds_value(bundle: &[u8], hash: &[u8; 32]) -> bool {
    match bundle {
        [67, 80, 76, 66, 1, _, _, _, _, value @ ..] => seal_hmac::hash(value) == *hash,
        _ => false,
    }
}

/// Checks the phrase at the bank, gathers its answers, and says whether its bundle holds the value. What is
/// returned is the hash of the value.
fn value_hash(
    rt: &impl Abort,
    alloc: Global,
    phrase: Phrase,
    bench: &TableBench,
) -> Result<[u8; 32], Fail>
    requires { IsSized (term phrase) }
{
    let places = two_places(rt, alloc)?;
    let bank = name(rt, "bank");
    let Some(_) = places.find(bank) else {
        return Err(Fail::from("no bank"));
    };
    let Ok(checked) = check(&places, bank, COUNTED, phrase) else {
        return Err(Fail::from("a phrase was refused"));
    };
    let book = ArtefactBook::empty(alloc);
    let Gathered::All(answers) = gather(alloc, &checked, &book, bench)? else {
        return Err(Fail::from("a measurement failed"));
    };
    let value = value_for(alloc, &places, &checked, &answers)?;
    let hash = hash_over(&value);
    let bundle = bundle_for(alloc, &places, &checked, &answers)?;
    assert!(rt; holds_value(bundle.items(), &hash));
    Ok(hash)
}

/// The same, for a hash that is known.
fn expect_value(
    rt: &impl Abort,
    alloc: Global,
    phrase: Phrase,
    bench: &TableBench,
    hash: &[u8; 32],
) -> Result<(), Fail>
    requires { IsSized (term phrase) }
{
    let found = value_hash(rt, alloc, phrase, bench)?;
    assert!(rt; found == *hash);
    Ok(())
}

#[test]
fn answers_are_gathered_up_to_the_first_fault(rt: HostRuntime) -> Result<(), Fail> {
    let alloc = rt.alloc();
    let bank = name(&rt, "bank");
    let book = ArtefactBook::empty(alloc);
    let aabb = (0, Said::Gives(b"\xaa\xbb"));
    let one = (1, Said::Gives(b"\x11"));
    let two = (2, Said::Gives(b"\x22"));
    let absent = (2, Said::Fails(BenchFault::NoArtefact));
    let broken = (1, Said::Fails(BenchFault::Broken(7)));
    let starved = (1, Said::Starves);
    let all = table(&rt, alloc, &[aabb, one, two])?;
    let without = table(&rt, alloc, &[aabb, one])?;
    let twice_broken = table(&rt, alloc, &[aabb, broken, absent])?;
    let starving = table(&rt, alloc, &[aabb, starved, absent])?;

    let first = Wanted::One(0, b"\xaa\xbb");
    let remote = Wanted::One(1, b"\x11");
    let phrase = sealed(&rt, alloc)?;
    let found = gather_session(alloc, &phrase, bank, &COUNTED, &book, &all);
    assert!(rt; is_wanted(found, first));
    let phrase = sealed_at_q(&rt, alloc)?;
    let found = gather_session(alloc, &phrase, bank, &COUNTED, &book, &all);
    assert!(rt; is_wanted(found, remote));
    let phrase = paired(&rt, alloc)?;
    let found = gather_session(alloc, &phrase, bank, &COUNTED, &book, &all);
    assert!(rt; is_wanted(found, Wanted::Many(2)));
    let found = gather_session(alloc, &phrase, bank, &COUNTED, &book, &without);
    assert!(rt; is_wanted(found, Wanted::Failed(2, BenchFault::NoArtefact)));
    let phrase = three(&rt, alloc)?;
    let found = gather_session(alloc, &phrase, bank, &COUNTED, &book, &twice_broken);
    assert!(rt; is_wanted(found, Wanted::Failed(1, BenchFault::Broken(7))));
    let found = gather_session(alloc, &phrase, bank, &COUNTED, &book, &starving);
    assert!(rt; is_wanted(found, Wanted::NoMemory));
    Ok(())
}

// The digest was computed by Python's hashlib: of `scan`, a zero byte, and 6631.
#[test]
fn digests_are_gathered_where_the_artefact_is(rt: HostRuntime) -> Result<(), Fail> {
    let alloc = rt.alloc();
    let bank = name(&rt, "bank");
    let phrase = sealed(&rt, alloc)?;
    let mut book = ArtefactBook::empty(alloc);
    let found = gather_session(alloc, &phrase, bank, &COUNTED, &book, &DigestBench);
    assert!(rt; is_wanted(found, Wanted::Failed(0, BenchFault::NoArtefact)));
    let bytes = Bytes::of(Vec::from_slice(alloc, b"\x66\x31")?);
    assert!(rt; book.add(bank, name(&rt, "scan"), bytes).is_ok());
    let found = gather_session(alloc, &phrase, bank, &COUNTED, &book, &DigestBench);
    let digest =
        b"\x3d\xdb\x35\x1b\xeb\x9b\xf2\xbe\x5c\x3b\x40\xa6\x65\x8a\x5e\x5d\xce\xa1\x52\x1a\x2c\x9c\x00\x6d\xeb\xf9\xba\x6c\xd1\xae\x90\x7b";
    assert!(rt; is_wanted(found, Wanted::One(0, digest)));
    Ok(())
}

// The hashes were computed by Python's hmac and hashlib, from the bytes of the values written out.
#[test]
fn checked_sessions_have_the_values_written_out(rt: HostRuntime) -> Result<(), Fail> {
    let alloc = rt.alloc();
    let aabb = (0, Said::Gives(b"\xaa\xbb"));
    let one = (1, Said::Gives(b"\x11"));
    let bench = table(&rt, alloc, &[aabb, one])?;
    let of_the_seal =
        b"\x31\x30\x73\x84\x49\xb6\x1e\xab\x78\x38\x8e\x05\x71\x44\x14\x47\x87\xc8\xc6\x5b\xb7\x87\xd3\xa3\x79\xe3\x91\xd2\x9a\x55\xc8\x37";
    let of_qs_seal =
        b"\x56\xf3\x70\xe3\x0b\xfd\x17\x2d\x17\xb9\x5e\x38\x8e\xe5\x50\xb1\x4d\x3c\xcb\x02\x38\x9c\x28\x32\x3f\x05\x5e\xee\x1b\xec\x5a\x1f";
    let of_the_hash =
        b"\xe4\xb3\xbc\xca\x60\x97\x0f\x7a\x6c\x4b\xa4\x6f\x2a\x37\xfb\xd5\x74\x11\x3a\xde\x5d\x8e\xab\xe3\x03\x90\x1c\xba\xb4\x82\xf1\xf9";
    let of_the_nonce =
        b"\x29\x6b\x3b\xac\x47\x01\x77\x61\x9b\x69\xe9\x97\xea\x08\xc6\x74\x64\x05\x30\xd8\x8e\x1a\x93\x65\x77\xd7\x7b\xd9\x0e\xc2\x14\xa9";
    expect_value(&rt, alloc, sealed(&rt, alloc)?, &bench, of_the_seal)?;
    expect_value(&rt, alloc, sealed_at_q(&rt, alloc)?, &bench, of_qs_seal)?;
    expect_value(&rt, alloc, hashed(alloc)?, &bench, of_the_hash)?;
    expect_value(
        &rt,
        alloc,
        asked_and_asked(&rt, alloc)?,
        &bench,
        of_the_nonce,
    )?;
    // The deepest of all: 1,024 seals over the nonce.
    let of_all_seals =
        b"\x2c\x61\xbb\x53\x1e\xfe\x50\xf3\x42\x3a\x84\xeb\xb6\xe9\x67\xc6\x54\xad\xf6\xc3\xa1\xc9\x28\x4f\x8b\xdc\xc7\xf5\x00\xf1\x0c\xa2";
    expect_value(&rt, alloc, seals(alloc, 1023)?, &bench, of_all_seals)?;
    // The longest chain, and the deepest nesting of brackets with the longest chain that goes with it.
    let longest = copies(&rt, alloc, EVENTS - 1, 0)?;
    expect_value(&rt, alloc, longest, &bench, of_the_nonce)?;
    let nested = copies(&rt, alloc, EVENTS - 1 - 2 * BRACKETS, BRACKETS / 2)?;
    expect_value(&rt, alloc, nested, &bench, of_the_nonce)?;
    let of_the_copies =
        b"\xa5\xb2\x6b\x6c\xb1\xfb\x6d\xdc\x57\x09\x3b\x79\xe5\x3a\x73\xd4\x11\x79\xe1\xba\x7e\x5f\xd8\xe2\xdc\x64\x8b\xd5\x39\x05\x16\x95";
    expect_value(&rt, alloc, copied_seals(alloc)?, &bench, of_the_copies)?;
    Ok(())
}

#[test]
fn the_law_of_rising_records_holds_of_the_programs_bench(_rt: HostRuntime) {
    rising_records_are_right::<DigestBench>();
}

/// An answer for each event of a small phrase.
fn many_answers(rt: &impl Abort, alloc: Global) -> Result<TableBench, NoMemory> {
    let bytes = [7; 64];
    let mut rows = Vec::new(alloc);
    for event in 0..64u32 {
        rows.push(TableRow {
            nonce: COUNTED,
            event,
            outcome: TableResult::Answer(answer(rt, &bytes[..event as usize])),
        })?;
    }
    Ok(TableBench::of(rows))
}

// The bundle is made without the value, and holds it.
#[test]
fn bundles_of_drawn_phrases_hold_their_values(rt: HostRuntime) -> Result<(), Fail> {
    let alloc = rt.alloc();
    let bench = many_answers(&rt, alloc)?;
    let mut state = 1;
    for _ in 0..40 {
        let phrase = drawn_phrase(&rt, alloc, &mut state)?;
        value_hash(&rt, alloc, phrase, &bench)?;
    }
    Ok(())
}
