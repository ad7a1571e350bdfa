use super::*;
use job_values::{Field, FieldAt, FieldKind, Section};
use phrase_reader::Kind;
use phrase_tree::Name;
use place_check::PlaceKind;
use std::alloc::{AllocError, Global};
use std::process::Abort;
use std::test::Fail;

fn name(rt: &impl Abort, text: &str) -> Name {
    Name::read(text).expect(rt, "a name")
}

const PLACE: &str = r#"{"name":"bank","key":"000102030405060708090a0b0c0d0e0f"}"#;

const SESSION: &str =
    r#"{"root":"bank","nonce":"000102030405060708090a0b0c0d0e0f","phrase":"CPY"}"#;

const TWO_PLACES: &str =
    r#"{"places":[{"name":"bank","key":"000102030405060708090a0b0c0d0e0f","asks":["q"],"sees":["q"],"offers":["scan","a","b"]},{"name":"q","key":"101112131415161718191a1b1c1d1e1f","offers":["scan"]}]"#;

fn joined(alloc: Global, parts: &[&str]) -> Result<String, AllocError> {
    let mut text = String::new(alloc);
    for part in parts {
        text.push_str(part)?;
    }
    Ok(text)
}

/// The job of two places, with one session of this phrase.
fn job_with(alloc: Global, phrase: &str) -> Result<String, AllocError> {
    joined(
        alloc,
        &[
            TWO_PLACES,
            r#","sessions":[{"root":"bank","nonce":"000102030405060708090a0b0c0d0e0f","phrase":""#,
            phrase,
            r#""}]}"#,
        ],
    )
}

/// Pieces of a phrase, each this many times, joined by arrows.
fn chained(alloc: Global, parts: &[(&str, usize)]) -> Result<String, AllocError> {
    let mut text = String::new(alloc);
    for (part, count) in parts {
        for _ in 0..*count {
            if !text.is_empty() {
                text.push_str(" -> ")?;
            }
            text.push_str(part)?;
        }
    }
    Ok(text)
}

/// What the text is refused for; none if it is accepted.
fn refusal(alloc: Global, text: &str, appraise: bool) -> Option<JobError> {
    match job_of(alloc, text.as_bytes(), appraise) {
        Ok(_) => None,
        Err(error) => Some(error),
    }
}

fn misplaced(event: u32, kind: PlaceKind) -> Option<JobError> {
    Some(JobError::Misplaced {
        session: 0,
        event,
        kind,
    })
}

fn bad_phrase(at: u32, kind: Kind) -> Option<JobError> {
    Some(JobError::BadPhrase {
        session: 0,
        at,
        kind,
    })
}

fn oversize(event: u32) -> Option<JobError> {
    Some(JobError::Oversize { session: 0, event })
}

// The rows were worked by hand from the rules of places.
#[test]
fn a_phrase_is_refused_where_places_forbid_it(rt: HostRuntime) -> Result<(), Fail> {
    let rows = [
        ("@q [USM scan -> SIG] -> USM a", None),
        ("@q [USM a]", misplaced(1, PlaceKind::NotOffered)),
        ("@q [@bank [CPY]]", misplaced(1, PlaceKind::MayNotAsk)),
        ("@zz [CPY] -> USM x", misplaced(0, PlaceKind::UnknownPlace)),
        ("KIM bank scan", misplaced(0, PlaceKind::MayNotSee)),
        ("USM Scan", bad_phrase(4, Kind::Word)),
        ("", bad_phrase(0, Kind::Expected)),
    ];
    for (phrase, expected) in rows {
        let text = job_with(rt.alloc(), phrase)?;
        assert_eq!(rt;
            refusal(rt.alloc(), text.as_str(), false),
            expected,
            "{phrase}"
        );
    }
    Ok(())
}

// Weights and events were counted by hand: 1,031 for a measurement, 37 for a seal or a hash.
#[test]
fn a_phrase_is_refused_past_its_limits(rt: HostRuntime) -> Result<(), Fail> {
    let rows: [(&[(&str, usize)], Option<JobError>); 8] = [
        (&[("CPY", 2_048)], None),
        (&[("CPY", 2_049)], bad_phrase(14_336, Kind::TooManyEvents)),
        (&[("USM a", 233), ("SIG", 592)], None),
        (
            &[("USM a", 233), ("SIG", 591), ("(CPY -<+ CPY)", 19)],
            oversize(899),
        ),
        (
            &[
                ("USM a", 233),
                ("SIG", 591),
                ("(CPY -<+ CPY)", 19),
                ("HSH", 1),
            ],
            oversize(899),
        ),
        (&[("USM a", 254)], None),
        (&[("USM a", 255)], oversize(254)),
        (
            &[("USM x", 1), ("USM a", 255)],
            misplaced(0, PlaceKind::NotOffered),
        ),
    ];
    for (parts, expected) in rows {
        let phrase = chained(rt.alloc(), parts)?;
        let text = job_with(rt.alloc(), phrase.as_str())?;
        assert_eq!(rt;
            refusal(rt.alloc(), text.as_str(), false),
            expected,
            "a phrase of {} bytes",
            phrase.len()
        );
    }
    Ok(())
}

#[test]
fn a_phrase_may_stand_in_64_brackets(rt: HostRuntime) -> Result<(), Fail> {
    for (count, expected) in [(64, None), (65, bad_phrase(64, Kind::TooDeep))] {
        let mut phrase = String::new(rt.alloc());
        for _ in 0..count {
            phrase.push_str("(")?;
        }
        phrase.push_str("CPY")?;
        for _ in 0..count {
            phrase.push_str(")")?;
        }
        let text = job_with(rt.alloc(), phrase.as_str())?;
        assert_eq!(rt; refusal(rt.alloc(), text.as_str(), false), expected);
    }
    Ok(())
}

/// A job of these lists and this bundle, each a text in JSON.
fn job_of_parts(alloc: Global, parts: &[&str; 5]) -> Result<String, AllocError> {
    joined(
        alloc,
        &[
            r#"{"bundle":"#,
            parts[4],
            r#","references":["#,
            parts[3],
            r#"],"sessions":["#,
            parts[2],
            r#"],"artefacts":["#,
            parts[1],
            r#"],"places":["#,
            parts[0],
            "]}",
        ],
    )
}

const BUNDLE: &str = r#"{"session":0,"bytes":""}"#;

/// A fault of form as it is written in a refusal; any other error as nothing.
fn fault_text(alloc: Global, error: JobError) -> Result<String, Fail> {
    let JobError::BadJob { at, kind } = error else {
        return Ok(String::new(alloc));
    };
    let section = at.section.word();
    let index = at.index;
    let mut text = match at.section {
        Section::Top => format!(in alloc; "$")?,
        Section::Bundle => format!(in alloc; "$.bundle")?,
        Section::Places | Section::Artefacts | Section::Sessions | Section::References => {
            format!(in alloc; "$.{section}[{index}]")?
        }
    };
    if let Some(field) = at.field {
        text.push_str(".")?;
        text.push_str(field.word())?;
    }
    if let Some(item) = at.item {
        text.push_str(format!(in alloc; "[{item}]")?.as_str())?;
    }
    text.push_str(" ")?;
    text.push_str(kind.word())?;
    Ok(text)
}

/// In a job in which one part is each of these texts in turn, the fault must be the one beside the
/// text.
fn expect_faults(
    rt: &impl Abort,
    alloc: Global,
    part: usize,
    path: &str,
    rows: &[(&str, &str)],
) -> Result<(), Fail> {
    for (text, fault) in rows {
        let mut parts = [PLACE, "", SESSION, "", BUNDLE];
        if part < 5 {
            parts[part] = text;
        }
        let job = job_of_parts(alloc, &parts)?;
        let error = refusal(alloc, job.as_str(), false).ok_or("refused")?;
        let found = fault_text(alloc, error)?;
        let expected = joined(alloc, &[path, fault])?;
        assert_eq!(rt; found.as_str(), expected.as_str(), "{text}");
    }
    Ok(())
}

#[test]
fn the_faults_of_a_place_are_found(rt: HostRuntime) -> Result<(), Fail> {
    let rows = [
        (r#"7"#, " wrong-kind"),
        (r#"null"#, " wrong-kind"),
        (r#"{}"#, ".name missing"),
        (r#"{"name":1}"#, ".name wrong-kind"),
        (r#"{"name":null}"#, ".name wrong-kind"),
        (r#"{"name":"Bank"}"#, ".name bad-name"),
        (
            r#"{"name":"a12345678901234567890123456789012"}"#,
            ".name bad-name",
        ),
        (r#"{"name":"a"}"#, ".key missing"),
        (r#"{"name":"a","key":[]}"#, ".key wrong-kind"),
        (r#"{"name":"a","key":"0g"}"#, ".key bad-hex"),
        (r#"{"name":"a","key":"000"}"#, ".key bad-hex"),
        (r#"{"name":"a","key":"00"}"#, ".key out-of-range"),
        (
            r#"{"name":"a","key":"000102030405060708090a0b0c0d0e","asks":7}"#,
            ".key out-of-range",
        ),
        (
            r#"{"name":"a","key":"000102030405060708090a0b0c0d0e0f","asks":7}"#,
            ".asks wrong-kind",
        ),
        (
            r#"{"name":"a","key":"000102030405060708090a0b0c0d0e0f","asks":null}"#,
            ".asks wrong-kind",
        ),
        (
            r#"{"name":"a","key":"000102030405060708090a0b0c0d0e0f","asks":["b",2]}"#,
            ".asks[1] wrong-kind",
        ),
        (
            r#"{"name":"a","key":"000102030405060708090a0b0c0d0e0f","asks":["b",""]}"#,
            ".asks[1] bad-name",
        ),
        (
            r#"{"name":"a","key":"000102030405060708090a0b0c0d0e0f","sees":{},"asks":[]}"#,
            ".sees wrong-kind",
        ),
        (
            r#"{"name":"a","key":"000102030405060708090a0b0c0d0e0f","sees":["-"]}"#,
            ".sees[0] bad-name",
        ),
        (
            r#"{"name":"a","key":"000102030405060708090a0b0c0d0e0f","offers":[{}]}"#,
            ".offers[0] wrong-kind",
        ),
        (
            r#"{"name":"a","key":"000102030405060708090A0B0C0D0E0F","extra":1}"#,
            " unknown",
        ),
    ];
    expect_faults(&rt, rt.alloc(), 0, "$.places[0]", &rows)
}

#[test]
fn the_faults_of_an_artefact_or_a_session_are_found(rt: HostRuntime) -> Result<(), Fail> {
    let artefacts = [
        (r#"[]"#, " wrong-kind"),
        (r#"{"name":"a","bytes":""}"#, ".place missing"),
        (r#"{"place":7}"#, ".place wrong-kind"),
        (r#"{"place":"7"}"#, ".place bad-name"),
        (r#"{"place":"a"}"#, ".name missing"),
        (r#"{"place":"a","name":{}}"#, ".name wrong-kind"),
        (r#"{"place":"a","name":""}"#, ".name bad-name"),
        (r#"{"place":"a","name":"b"}"#, ".bytes missing"),
        (r#"{"place":"a","name":"b","bytes":0}"#, ".bytes wrong-kind"),
        (
            r#"{"place":"a","name":"b","bytes":"0","x":0}"#,
            ".bytes bad-hex",
        ),
        (r#"{"place":"a","name":"b","bytes":"","":0}"#, " unknown"),
    ];
    expect_faults(&rt, rt.alloc(), 1, "$.artefacts[0]", &artefacts)?;
    let sessions = [
        (r#""CPY""#, " wrong-kind"),
        (r#"{"nonce":""}"#, ".root missing"),
        (r#"{"root":[]}"#, ".root wrong-kind"),
        (r#"{"root":"a-b"}"#, ".root bad-name"),
        (r#"{"root":"a","phrase":7}"#, ".nonce missing"),
        (r#"{"root":"a","nonce":16}"#, ".nonce wrong-kind"),
        (r#"{"root":"a","nonce":"xx"}"#, ".nonce bad-hex"),
        (
            r#"{"root":"a","nonce":"000102030405060708090a0b0c0d0e0f10"}"#,
            ".nonce out-of-range",
        ),
        (
            r#"{"root":"a","nonce":"000102030405060708090a0b0c0d0e0f"}"#,
            ".phrase missing",
        ),
        (
            r#"{"root":"a","nonce":"000102030405060708090a0b0c0d0e0f","phrase":null}"#,
            ".phrase wrong-kind",
        ),
        (
            r#"{"root":"a","nonce":"000102030405060708090a0b0c0d0e0f","phrase":"?","x":1}"#,
            " unknown",
        ),
    ];
    expect_faults(&rt, rt.alloc(), 2, "$.sessions[0]", &sessions)
}

#[test]
fn the_faults_of_a_reference_or_a_bundle_are_found(rt: HostRuntime) -> Result<(), Fail> {
    let references = [
        (r#"true"#, " wrong-kind"),
        (r#"{}"#, ".place missing"),
        (r#"{"place":"a","target":null}"#, ".target wrong-kind"),
        (r#"{"place":"a","target":"_"}"#, ".target bad-name"),
        (r#"{"place":"a","target":"b"}"#, ".asp missing"),
        (r#"{"place":"a","asp":1}"#, ".asp wrong-kind"),
        (r#"{"place":"a","asp":"A"}"#, ".asp bad-name"),
        (r#"{"place":"a","asp":"b","args":"c"}"#, ".args wrong-kind"),
        (
            r#"{"place":"a","asp":"b","args":[1,2,3,4,null]}"#,
            ".args out-of-range",
        ),
        (
            r#"{"place":"a","asp":"b","args":[1,"B"]}"#,
            ".args[1] bad-name",
        ),
        (
            r#"{"place":"a","asp":"b","args":[1.0]}"#,
            ".args[0] wrong-kind",
        ),
        (
            r#"{"place":"a","asp":"b","args":[-1]}"#,
            ".args[0] wrong-kind",
        ),
        (
            r#"{"place":"a","asp":"b","args":[1,2,4294967296]}"#,
            ".args[2] out-of-range",
        ),
        (
            r#"{"place":"a","asp":"b","args":[18446744073709551616]}"#,
            ".args[0] wrong-kind",
        ),
        (r#"{"place":"a","asp":"b"}"#, ".answer missing"),
        (
            r#"{"place":"a","asp":"b","answer":[]}"#,
            ".answer wrong-kind",
        ),
        (r#"{"place":"a","asp":"b","answer":"a"}"#, ".answer bad-hex"),
        (
            r#"{"place":"a","asp":"b","answer":"aa","bytes":""}"#,
            " unknown",
        ),
    ];
    expect_faults(&rt, rt.alloc(), 3, "$.references[0]", &references)?;
    let bundles = [
        (r#"[]"#, " wrong-kind"),
        (r#"{}"#, ".session missing"),
        (r#"{"session":"0"}"#, ".session wrong-kind"),
        (r#"{"session":-0}"#, ".session wrong-kind"),
        (r#"{"session":1}"#, ".session out-of-range"),
        (
            r#"{"session":18446744073709551615}"#,
            ".session out-of-range",
        ),
        (r#"{"session":0}"#, ".bytes missing"),
        (r#"{"session":0,"bytes":[0]}"#, ".bytes wrong-kind"),
        (r#"{"session":0,"bytes":"ag"}"#, ".bytes bad-hex"),
        (r#"{"session":0,"bytes":"","places":0}"#, " unknown"),
    ];
    expect_faults(&rt, rt.alloc(), 4, "$.bundle", &bundles)
}

/// The text with the place put in for each `P` and the session for each `S`.
fn filled(alloc: Global, shape: &str) -> Result<String, AllocError> {
    let mut text = String::new(alloc);
    for byte in shape.as_bytes() {
        match *byte {
            b'P' => text.push_str(PLACE)?,
            b'S' => text.push_str(SESSION)?,
            other => text.push(char::from(other))?,
        }
    }
    Ok(text)
}

#[test]
fn the_faults_of_the_job_itself_are_found(rt: HostRuntime) -> Result<(), Fail> {
    let alloc = rt.alloc();
    let rows = [
        (r#"[]"#, "$ wrong-kind"),
        (r#"{}"#, "$.places missing"),
        (r#"{"places":0}"#, "$.places wrong-kind"),
        (r#"{"places":[]}"#, "$.places out-of-range"),
        (r#"{"places":[P,P,{}]}"#, "$.places[2].name missing"),
        (r#"{"places":[P],"artefacts":{}}"#, "$.artefacts wrong-kind"),
        (r#"{"places":[P],"references":7}"#, "$.sessions missing"),
        (r#"{"places":[P],"sessions":""}"#, "$.sessions wrong-kind"),
        (r#"{"places":[P],"sessions":[]}"#, "$.sessions out-of-range"),
        (
            r#"{"places":[P],"sessions":[S],"references":null}"#,
            "$.references wrong-kind",
        ),
        (
            r#"{"places":[P],"sessions":[S],"bundle":{"session":0,"bytes":""},"x":[]}"#,
            "$ unknown",
        ),
        (r#"{"places":[P],"sessions":[S]}"#, "$.bundle missing"),
    ];
    for (shape, expected) in rows {
        let text = filled(alloc, shape)?;
        let error = refusal(alloc, text.as_str(), true).ok_or("refused")?;
        let found = fault_text(alloc, error)?;
        assert_eq!(rt; found.as_str(), expected, "{shape}");
    }
    let rows = [
        (r#"{"places":[P],"sessions":[S]} "#, None),
        (r#"{"places":[P],"sessions":[0],"sessions":[S]}"#, None),
        (r#"{"places":[P],"sessions":[S]"#, Some(JobError::NotJson)),
        (r#""#, Some(JobError::NotJson)),
        (r#"{"places":1e999}"#, Some(JobError::NotJson)),
    ];
    for (shape, expected) in rows {
        let text = filled(alloc, shape)?;
        assert_eq!(rt; refusal(alloc, text.as_str(), false), expected, "{shape}");
    }
    Ok(())
}

const BANK: &str = r#"{"name":"bank","key":"000102030405060708090a0b0c0d0e0f","offers":["scan"]}"#;

const Q: &str = r#"{"name":"q","key":"101112131415161718191a1b1c1d1e1f"}"#;

const BANK_SCAN: &str = r#"{"place":"bank","name":"scan","bytes":"01"}"#;

const BANK_SCAN_AGAIN: &str = r#"{"place":"bank","name":"scan","bytes":"02"}"#;

const Q_SCAN: &str = r#"{"place":"q","name":"scan","bytes":"01"}"#;

const OF_BANK: &str = r#"{"place":"bank","asp":"scan","args":[7,"x"],"answer":"01"}"#;

const OF_BANK_AGAIN: &str = r#"{"place":"bank","asp":"scan","args":[7,"x"],"answer":"02"}"#;

const OF_Q: &str = r#"{"place":"bank","target":"q","asp":"scan","args":[7,"x"],"answer":"01"}"#;

const ONE: &str =
    r#"{"root":"bank","nonce":"00000000000000000000000000000001","phrase":"USM scan"}"#;

const TWO: &str = r#"{"root":"q","nonce":"00000000000000000000000000000002","phrase":"CPY"}"#;

const ONE_AGAIN: &str = r#"{"root":"q","nonce":"00000000000000000000000000000001","phrase":"SIG"}"#;

const NOWHERE: &str = r#"{"root":"zz","nonce":"00000000000000000000000000000003","phrase":"CPY"}"#;

const NO_PHRASE: &str =
    r#"{"root":"q","nonce":"00000000000000000000000000000004","phrase":"CPY CPY"}"#;

const NOT_OFFERED: &str =
    r#"{"root":"q","nonce":"00000000000000000000000000000005","phrase":"CPY -> USM scan"}"#;

/// The items of a list, with commas between them.
fn listed(alloc: Global, items: &[&str]) -> Result<String, AllocError> {
    let mut text = String::new(alloc);
    for item in items {
        if !text.is_empty() {
            text.push_str(",")?;
        }
        text.push_str(item)?;
    }
    Ok(text)
}

/// The job of these lists must be refused for this, or accepted.
fn expect(
    rt: &impl Abort,
    alloc: Global,
    places: &[&str],
    artefacts: &[&str],
    sessions: &[&str],
    references: &[&str],
    expected: Option<JobError>,
) -> Result<(), Fail> {
    let places = listed(alloc, places)?;
    let artefacts = listed(alloc, artefacts)?;
    let sessions = listed(alloc, sessions)?;
    let references = listed(alloc, references)?;
    let parts = [
        places.as_str(),
        artefacts.as_str(),
        sessions.as_str(),
        references.as_str(),
        BUNDLE,
    ];
    let text = job_of_parts(alloc, &parts)?;
    assert_eq!(rt; refusal(alloc, text.as_str(), true), expected, "{text}");
    Ok(())
}

// The pairs and the indices were counted by hand.
#[test]
fn a_whole_job_is_refused_for_its_first_repeat(rt: HostRuntime) -> Result<(), Fail> {
    let alloc = rt.alloc();
    let both = [BANK, Q];
    let places = Some(JobError::RepeatedPlace {
        first: 1,
        second: 2,
    });
    expect(
        &rt,
        alloc,
        &[BANK, Q, Q, BANK],
        &[],
        &[ONE, ONE],
        &[],
        places,
    )?;
    let artefacts = Some(JobError::RepeatedArtefact {
        first: 1,
        second: 2,
    });
    let list = [Q_SCAN, BANK_SCAN, BANK_SCAN_AGAIN, Q_SCAN];
    expect(&rt, alloc, &both, &list, &[NOWHERE], &[], artefacts)?;
    let references = Some(JobError::RepeatedReference {
        first: 1,
        second: 3,
    });
    let list = [OF_Q, OF_BANK, OF_BANK_AGAIN, OF_BANK];
    expect(&rt, alloc, &both, &[], &[NOWHERE], &list, references)?;
    let nonces = Some(JobError::RepeatedNonce {
        first: 0,
        second: 2,
    });
    expect(&rt, alloc, &both, &[], &[ONE, TWO, ONE_AGAIN], &[], nonces)?;
    let list = [ONE, NO_PHRASE, ONE_AGAIN, TWO, ONE];
    expect(&rt, alloc, &both, &[], &list, &[], nonces)?;
    let at = FieldAt {
        section: Section::Sessions,
        index: 1,
        field: Some(Field::Root),
        item: None,
    };
    let kind = FieldKind::Missing;
    let fault = Some(JobError::BadJob { at, kind });
    expect(&rt, alloc, &[BANK, BANK], &[], &[ONE, "{}"], &[], fault)
}

#[test]
fn a_whole_job_is_refused_for_its_first_session(rt: HostRuntime) -> Result<(), Fail> {
    let alloc = rt.alloc();
    let both = [BANK, Q];
    let references = [OF_BANK, OF_Q];
    expect(
        &rt,
        alloc,
        &both,
        &[BANK_SCAN, Q_SCAN],
        &[ONE, TWO],
        &references,
        None,
    )?;
    let root = Some(JobError::BadRoot { session: 1 });
    expect(&rt, alloc, &both, &[], &[ONE, NOWHERE, ONE], &[], root)?;
    let phrase = Some(JobError::BadPhrase {
        session: 2,
        at: 4,
        kind: Kind::Trailing,
    });
    expect(
        &rt,
        alloc,
        &both,
        &[],
        &[ONE, NOT_OFFERED, NO_PHRASE],
        &[],
        phrase,
    )?;
    let offer = Some(JobError::Misplaced {
        session: 1,
        event: 1,
        kind: PlaceKind::NotOffered,
    });
    expect(&rt, alloc, &both, &[], &[ONE, NOT_OFFERED, TWO], &[], offer)
}

#[test]
fn an_accepted_job_holds_what_is_written(rt: HostRuntime) -> Result<(), Fail> {
    let alloc = rt.alloc();
    let places = listed(alloc, &[BANK, Q])?;
    let artefacts = listed(alloc, &[Q_SCAN, BANK_SCAN])?;
    let sessions = listed(alloc, &[ONE, TWO])?;
    let references = listed(alloc, &[OF_Q, OF_BANK, OF_BANK_AGAIN])?;
    let parts = [
        places.as_str(),
        artefacts.as_str(),
        sessions.as_str(),
        references.as_str(),
        r#"{"session":1,"bytes":"AbCd"}"#,
    ];
    let text = job_of_parts(alloc, &parts)?;
    let job = job_of(alloc, text.as_bytes(), true)?;
    let (bank, q, scan) = (name(&rt, "bank"), name(&rt, "q"), name(&rt, "scan"));
    assert_eq!(rt; job.places.count(), 2);
    assert_eq!(rt; job.places.find(q), Some(1));
    assert_eq!(rt; job.artefacts.find(bank, scan), Some([1].as_slice()));
    assert_eq!(rt; job.artefacts.find(q, bank), None);
    assert_eq!(rt; job.sessions.len(), 2);
    assert!(rt; job.sessions[0].root() == bank);
    assert_eq!(rt; job.sessions[1].nonce()[15], 2);
    assert_eq!(rt; job.references.items().len(), 3);
    let bundle = job.bundle.ok_or("a bundle")?;
    assert_eq!(rt; bundle.session, 1);
    assert_eq!(rt; bundle.bytes.items(), [171, 205].as_slice());
    Ok(())
}

/// A list of this many items; each has its number, in two bytes, between the front and the back.
fn many(alloc: Global, front: &str, back: &str, count: u16) -> Result<String, AllocError> {
    let mut text = String::new(alloc);
    for number in 0..count {
        if number > 0 {
            text.push_str(",")?;
        }
        text.push_str(front)?;
        let high = (number / 256) as u8;
        let low = (number % 256) as u8;
        text.push_str(hex::encode(alloc, [high, low])?.as_str())?;
        text.push_str(back)?;
    }
    Ok(text)
}

/// The error of a list that is too long.
fn too_long(field: Field) -> JobError {
    let at = FieldAt {
        section: Section::Top,
        index: 0,
        field: Some(field),
        item: None,
    };
    let kind = FieldKind::OutOfRange;
    JobError::BadJob { at, kind }
}

#[test]
fn lists_have_limits(rt: HostRuntime) -> Result<(), Fail> {
    let alloc = rt.alloc();
    let place = (
        r#"{"name":"p"#,
        r#"","key":"000102030405060708090a0b0c0d0e0f"}"#,
    );
    let artefact = (r#"{"place":"q","name":"a"#, r#"","bytes":""}"#);
    let session = (
        r#"{"root":"bank","nonce":"0000000000000000000000000000"#,
        r#"","phrase":"CPY"}"#,
    );
    let reference = (r#"{"place":"q","asp":"a"#, r#"","answer":""}"#);
    let rows = [
        (0, Field::Places, place, 64),
        (1, Field::Artefacts, artefact, 4096),
        (2, Field::Sessions, session, 256),
        (3, Field::References, reference, 4096),
    ];
    for (part, field, (front, back), limit) in rows {
        for (count, expected) in [(limit, None), (limit + 1, Some(too_long(field)))] {
            let list = many(alloc, front, back, count)?;
            let nowhere = many(
                alloc,
                r#"{"root":"p"#,
                r#"","nonce":"000102030405060708090a0b0c0d0e0f","phrase":"CPY"}"#,
                1,
            )?;
            let mut parts = [PLACE, "", SESSION, "", BUNDLE];
            parts[part] = list.as_str();
            if part == 0 {
                parts[2] = nowhere.as_str();
            }
            let text = job_of_parts(alloc, &parts)?;
            assert_eq!(rt;
                refusal(alloc, text.as_str(), true),
                expected,
                "{part} {count}"
            );
        }
    }
    Ok(())
}
