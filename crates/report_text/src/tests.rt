ghost use Rattle.std.specs.Prelude.{IfOk};
ghost use Rattle.phrase_tree.specs.Term.{term};
ghost use Rattle.phrase_tree.specs.Numbering.{IsSized};

use super::*;
use appraiser::{Verdict, VerdictOf, Verdicts};
use bench_trait::BenchFault;
use evidence_codec::BadKind;
use phrase_tree::{Arg, Args, Asp, Name, NoMemory, Phrase, Place, Split};
use std::alloc::Global;
use std::test::Fail;
use transcript::{AuditError, TranscriptKind};

fn asp(name: Name) -> Asp {
    Asp {
        name,
        args: Args::none(),
    }
}

// @q [USM scan -> SIG]
fn asked(alloc: Global, q: Place, scan: Name) -> Result<Phrase, NoMemory>
    ensures { IfOk result (λ phrase. IsSized (term phrase)) }
{
    let left = Box::new(alloc, Phrase::usm(alloc, asp(scan))?)?;
    let right = Box::new(alloc, Phrase::Sig)?;
    let body = Box::new(alloc, Phrase::Then(left, right))?;
    Ok(Phrase::At(q, body))
}

// @q [@bank [@q [CPY]]]
fn asked_back(alloc: Global, q: Place, bank: Place) -> Result<Phrase, NoMemory>
    ensures { IfOk result (λ phrase. IsSized (term phrase)) }
{
    let leaf = Box::new(alloc, Phrase::Cpy)?;
    let inner = Box::new(alloc, Phrase::At(q, leaf))?;
    let middle = Box::new(alloc, Phrase::At(bank, inner))?;
    Ok(Phrase::At(q, middle))
}

fn two_arguments(word: Name, number: u32) -> Args {
    let mut args = Args::none();
    let _ = args.push(Arg::Word(word));
    let _ = args.push(Arg::Number(number));
    args
}

// USM a +~+ KIM q b a 7 -> HSH, or the same with +<+
fn joined(alloc: Global, q: Place, a: Name, b: Name, parallel: bool) -> Result<Phrase, NoMemory>
    ensures { IfOk result (λ phrase. IsSized (term phrase)) }
{
    let left = Box::new(alloc, Phrase::usm(alloc, asp(a))?)?;
    let measurement = Asp {
        name: b,
        args: two_arguments(a, 7),
    };
    let right = Box::new(alloc, Phrase::kim(alloc, q, measurement)?)?;
    let split = Split {
        left: true,
        right: true,
    };
    let branch = if parallel {
        Phrase::Par(split, left, right)
    } else {
        Phrase::Seq(split, left, right)
    };
    Ok(Phrase::Then(Box::new(alloc, branch)?, Box::new(alloc, Phrase::Hsh)?))
}

// The lines are those of another program.
#[test]
fn events_are_reported_with_their_direct_predecessors(rt: HostRuntime) -> Result<(), Fail> {
    let bank = Name::read("bank").ok_or("bank")?;
    let q = Name::read("q").ok_or("q")?;
    let scan = Name::read("scan").ok_or("scan")?;
    let text = events_text(rt.alloc(), 0, &asked(rt.alloc(), q, scan)?, bank)?;
    let lines =
        "session 0 events 4\nevent 0 req q at bank\nevent 1 usm scan at q after 0\nevent 2 sig at q after 1\nevent 3 rpl q at bank after 2\n";
    assert_eq!(rt; text.items(), lines.as_bytes());
    let text = events_text(rt.alloc(), 255, &asked_back(rt.alloc(), q, bank)?, bank)?;
    let lines =
        "session 255 events 7\nevent 0 req q at bank\nevent 1 req bank at q after 0\nevent 2 req q at bank after 1\nevent 3 cpy at q after 2\nevent 4 rpl q at bank after 3\nevent 5 rpl bank at q after 4\nevent 6 rpl q at bank after 5\n";
    assert_eq!(rt; text.items(), lines.as_bytes());
    let text = events_text(
        rt.alloc(),
        1,
        &joined(rt.alloc(), q, scan, bank, true)?,
        bank,
    )?;
    let lines =
        "session 1 events 5\nevent 0 split at bank\nevent 1 usm scan at bank after 0\nevent 2 kim q bank scan 7 at bank after 0\nevent 3 join at bank after 1 2\nevent 4 hsh at bank after 3\n";
    assert_eq!(rt; text.items(), lines.as_bytes());
    let text = events_text(rt.alloc(), 1, &joined(rt.alloc(), q, scan, bank, false)?, q)?;
    let lines =
        "session 1 events 5\nevent 0 split at q\nevent 1 usm scan at q after 0\nevent 2 kim q bank scan 7 at q after 1\nevent 3 join at q after 2\nevent 4 hsh at q after 3\n";
    assert_eq!(rt; text.items(), lines.as_bytes());
    Ok(())
}

// The lines are those of another program.
#[test]
fn refusals_of_appraisals_have_their_lines(rt: HostRuntime) {
    for (refusal, line) in [
        (Refusal::NoReference { event: 0 }, "error: no reference 0\n"),
        (
            Refusal::Ambiguous { event: 0 },
            "error: ambiguous reference 0\n",
        ),
        (
            bad_bundle(34, BadKind::Short),
            "error: bad bundle at 34 short\n",
        ),
        (bad_bundle(4, BadKind::Tag), "error: bad bundle at 4 tag\n"),
        (
            bad_bundle(25, BadKind::Length),
            "error: bad bundle at 25 length\n",
        ),
        (
            bad_bundle(26, BadKind::Rest),
            "error: bad bundle at 26 rest\n",
        ),
        (
            bad_bundle(7184, BadKind::Deep),
            "error: bad bundle at 7184 deep\n",
        ),
        (Refusal::BadShape { node: 0 }, "error: bad bundle shape 0\n"),
    ] {
        assert_eq!(rt; refusal_line(&refusal).bytes(), line.as_bytes());
    }
}

// The lines are those of another program.
#[test]
fn refusals_of_audits_have_their_lines(rt: HostRuntime) {
    for (error, line) in [
        (
            bad_transcript(9, TranscriptKind::Short),
            "error: transcript at 9 short\n",
        ),
        (
            bad_transcript(4, TranscriptKind::Tag),
            "error: transcript at 4 tag\n",
        ),
        (
            bad_transcript(14, TranscriptKind::Length),
            "error: transcript at 14 length\n",
        ),
        (
            bad_transcript(15, TranscriptKind::Name),
            "error: transcript at 15 name\n",
        ),
        (
            bad_transcript(4294967295, TranscriptKind::Rest),
            "error: transcript at 4294967295 rest\n",
        ),
        (
            AuditError::Illegal { entry: 2 },
            "error: transcript entry 2 illegal\n",
        ),
        (
            AuditError::Differs {
                entry: 1,
                got: Err(BenchFault::NoArtefact),
            },
            "error: transcript entry 1 differs\n",
        ),
        (AuditError::Unfinished, "error: transcript unfinished\n"),
        (AuditError::NoMemory, "error: no memory\n"),
    ] {
        assert_eq!(rt;
            refusal_line(&Refusal::Transcript(error)).bytes(),
            line.as_bytes()
        );
    }
}

fn bad_transcript(at: u32, kind: TranscriptKind) -> AuditError {
    AuditError::Bad { at, kind }
}

fn bad_bundle(at: u32, kind: BadKind) -> Refusal {
    Refusal::BadBundle { at, kind }
}

fn push(verdicts: &mut Verdicts, of: VerdictOf, good: bool) -> Result<(), NoMemory> {
    match verdicts.push(Verdict { of, good }) {
        Ok(()) => Ok(()),
        Err(_) => Err(NoMemory),
    }
}

// The lines are those of another program.
#[test]
fn verdicts_have_their_lines(rt: HostRuntime) -> Result<(), Fail> {
    let mut verdicts = Verdicts::of(Vec::new(rt.alloc()));
    let text = verdicts_text(rt.alloc(), 0, &verdicts)?;
    assert_eq!(rt; text.items(), "appraise session 0\naccepted\n".as_bytes());
    push(&mut verdicts, VerdictOf::Seal(7), true)?;
    push(&mut verdicts, VerdictOf::Nonce, true)?;
    let text = verdicts_text(rt.alloc(), 0, &verdicts)?;
    assert_eq!(rt;
        text.items(),
        "appraise session 0\nseal 7 ok\nnonce ok\naccepted\n".as_bytes()
    );
    push(&mut verdicts, VerdictOf::Leaf(2047), false)?;
    push(&mut verdicts, VerdictOf::Hash(2), true)?;
    let text = verdicts_text(rt.alloc(), 255, &verdicts)?;
    let lines = "appraise session 255\nseal 7 ok\nnonce ok\nleaf 2047 bad\nhash 2 ok\nrejected\n";
    assert_eq!(rt; text.items(), lines.as_bytes());
    Ok(())
}

#[test]
fn an_upgraded_bundle_has_its_line(rt: HostRuntime) -> Result<(), Fail> {
    let text = upgrade_text(rt.alloc(), 3, b"CPLB\x02\xaf")?;
    assert_eq!(rt;
        text.items(),
        "upgrade session 3\nbundle 43504c4202af\n".as_bytes()
    );
    Ok(())
}
