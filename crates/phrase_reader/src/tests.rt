use super::*;
use std::alloc::{AllocError, Global};
use std::test::Fail;

fn refusal(alloc: Global, text: &str) -> Option<ReadError> {
    read(alloc, text).err()
}

fn refused(at: u32, kind: Kind) -> Option<ReadError> {
    Some(ReadError::Refused { at, kind })
}

fn repeated(alloc: Global, parts: &[(&str, usize)]) -> Result<String, AllocError> {
    let mut text = String::new(alloc);
    for (part, count) in parts {
        for _ in 0..*count {
            text.push_str(part)?;
        }
    }
    Ok(text)
}

#[test]
fn a_text_is_refused_by_its_first_token_that_breaks_a_rule(rt: HostRuntime) {
    let rows = [
        ("", 0, Kind::Expected),
        ("USM scan -> ", 12, Kind::Expected),
        ("CPY CPY", 4, Kind::Trailing),
        ("CPY +<* CPY", 6, Kind::Char),
        ("CPY +<", 6, Kind::Char),
        ("CPY ! CPY CPY", 4, Kind::Char),
        ("USM Scan", 4, Kind::Word),
        ("USM a 007", 6, Kind::Word),
        ("CPY CPY_", 4, Kind::Word),
        ("USM a 4294967296", 6, Kind::NumberTooLarge),
        ("USM a b c d 99999999999", 12, Kind::NumberTooLarge),
        ("USM a b c d e f", 14, Kind::TooManyArgs),
        ("CPY +<+ CPY +~+ CPY", 12, Kind::Trailing),
        ("(CPY", 4, Kind::Expected),
        ("@q CPY", 3, Kind::Expected),
        ("usm a", 0, Kind::Expected),
        ("CPY]", 3, Kind::Trailing),
        ("(CPY]", 4, Kind::Expected),
    ];
    for (text, at, kind) in rows {
        assert_eq!(rt; refusal(rt.alloc(), text), refused(at, kind), "{text}");
    }
}

#[test]
fn a_text_is_refused_past_its_limits(rt: HostRuntime) -> Result<(), Fail> {
    let rows: [(&[(&str, usize)], Option<ReadError>); 7] = [
        (&[(" ", 65_537)], refused(65_536, Kind::TooLong)),
        (&[("CPY", 1), (" ", 65_533)], None),
        (&[("(", 64), ("CPY", 1), (")", 64)], None),
        (
            &[("(", 65), ("CPY", 1), (")", 65)],
            refused(64, Kind::TooDeep),
        ),
        (&[("(", 64), ("[", 1)], refused(64, Kind::Expected)),
        (&[("CPY", 1), (" -> CPY", 2_047)], None),
        (
            &[("CPY", 1), (" -> CPY", 2_048)],
            refused(14_336, Kind::TooManyEvents),
        ),
    ];
    for (parts, expected) in rows {
        let text = repeated(rt.alloc(), parts)?;
        assert_eq!(rt;
            refusal(rt.alloc(), text.as_str()),
            expected,
            "a text of {} bytes",
            text.len()
        );
    }
    Ok(())
}

#[test]
fn a_phrase_is_printed_in_its_canonical_text(rt: HostRuntime) -> Result<(), Fail> {
    let rows = [
        ("((CPY))", "CPY"),
        ("\tSIG\r\n", "SIG"),
        ("HSH", "HSH"),
        ("NUL", "NUL"),
        ("USM scan->NUL", "USM scan -> NUL"),
        ("USM a x 1 0 4294967295", "USM a x 1 0 4294967295"),
        ("KIM q a_1 x 1", "KIM q a_1 x 1"),
        ("CPY->(CPY->CPY)", "CPY -> (CPY -> CPY)"),
        ("(CPY->SIG)->CPY", "CPY -> SIG -> CPY"),
        ("@q[(CPY)]", "@q [CPY]"),
        ("@q[CPY+<-SIG]->HSH", "@q [CPY +<- SIG] -> HSH"),
        ("CPY +<+ SIG", "CPY +<+ SIG"),
        ("CPY -<+ SIG", "CPY -<+ SIG"),
        ("CPY -<- SIG", "CPY -<- SIG"),
        ("CPY +~+ SIG", "CPY +~+ SIG"),
        ("CPY +~- SIG", "CPY +~- SIG"),
        ("CPY -~+ SIG", "CPY -~+ SIG"),
        ("CPY -~- SIG", "CPY -~- SIG"),
        ("(CPY +<- SIG) -> HSH", "(CPY +<- SIG) -> HSH"),
        ("HSH -> (CPY +<- SIG)", "HSH -> (CPY +<- SIG)"),
        ("(CPY -> SIG) +~+ (HSH -> CPY)", "CPY -> SIG +~+ HSH -> CPY"),
        (
            "(CPY +<+ SIG) +~- (HSH -~- CPY)",
            "(CPY +<+ SIG) +~- (HSH -~- CPY)",
        ),
    ];
    for (text, canonical) in rows {
        let phrase = read(rt.alloc(), text)?;
        let printed = print(rt.alloc(), &phrase)?;
        assert_eq!(rt; printed.items(), canonical.as_bytes(), "{text}");
        let again = print(rt.alloc(), &read(rt.alloc(), canonical)?)?;
        assert_eq!(rt; again.items(), canonical.as_bytes(), "{canonical}");
    }
    Ok(())
}
