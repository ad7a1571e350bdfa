ghost use Rattle.std.specs.Prelude.{◌≡◌, ◌+◌, ◌≤◌, ◌++◌, ◌∷◌, [], codes, decimal, length};
ghost use Rattle.phrase_reader.specs.Words.{refusal_word};
ghost use Rattle.place_check.specs.Words.{place_word};
ghost use Rattle.evidence_codec.specs.Words.{bundle_word};
ghost use Rattle.job_values.specs.Words.{field_text, field_word, index_text, item_text, kind_word, section_text, section_word};
ghost use Rattle.job_reader.specs.declared.refusal.JobError.TheVariants as errors;
ghost use Rattle.report_text.specs.declared.refusal.Refusal.TheVariants as refusals;
ghost use Rattle.transcript.specs.declared.auditing.AuditError.TheVariants as audits;
ghost use Rattle.report_text.specs.Refusal.{audit_line, job_line, line_of, numbers_and_word, one_number, transcript_word, two_numbers};

use crate::inline_line::Line;
use evidence_codec::BadKind;
use job_reader::JobError;
use job_values::{Field, FieldAt, FieldKind, Section};
use phrase_reader::Kind;
use place_check::PlaceKind;
use transcript::{AuditError, TranscriptKind};

/// Why nothing was reported.
#[derive(Debug, Drop)]
pub enum Refusal {
    /// The words are not a command.
    Words,
    /// The source met a fault.
    ReadFault,
    /// The input is longer than a job may be.
    TooLong,
    /// The job is refused.
    Job(JobError),
    /// The least event whose measurement has no reference.
    NoReference { event: u32 },
    /// The least event of a measurement under a hash that has several references.
    Ambiguous { event: u32 },
    /// The bytes are not a bundle: the first fault from the left.
    BadBundle { at: u32, kind: BadKind },
    /// The bundle's value doesn't have the phrase's shape: the first node that differs.
    BadShape { node: u32 },
    /// A transcript isn't accepted.
    Transcript(AuditError),
    NoMemory,
}

/// The one line that a refusal writes. Takes no memory.
pub fn refusal_line(refusal: &Refusal) -> Line
    ensures { result ≡ line_of refusal.now }
{
    match refusal {
        Refusal::Words => Line::of(b"error: words\n"),
        Refusal::ReadFault => Line::of(b"error: read fault\n"),
        Refusal::TooLong => Line::of(b"error: input too long\n"),
        Refusal::Job(error) => job_line(error),
        Refusal::NoReference { event } => number_line(b"error: no reference ", *event),
        Refusal::Ambiguous { event } => number_line(b"error: ambiguous reference ", *event),
        Refusal::BadBundle { at, kind } => bundle_line(*at, *kind),
        Refusal::BadShape { node } => number_line(b"error: bad bundle shape ", *node),
        Refusal::Transcript(error) => audit_line(error),
        Refusal::NoMemory => Line::of(b"error: no memory\n"),
    }
}

fn job_line(error: &JobError) -> Line
    ensures { result ≡ job_line error.now }
{
    match error {
        JobError::NotJson => Line::of(b"error: not json\n"),
        JobError::BadJob { at, kind } => field_line(at, *kind),
        JobError::RepeatedPlace { first, second } => pair_line(
            b"error: repeated place ",
            *first,
            *second,
        ),
        JobError::RepeatedArtefact { first, second } => {
            pair_line(b"error: repeated artefact ", *first, *second)
        }
        JobError::RepeatedReference { first, second } => {
            pair_line(b"error: repeated reference ", *first, *second)
        }
        JobError::BadRoot { session } => number_line(b"error: bad root ", *session),
        JobError::RepeatedNonce { first, second } => pair_line(
            b"error: repeated nonce ",
            *first,
            *second,
        ),
        JobError::BadPhrase { session, at, kind } => {
            word_line(b"error: phrase ", *session, *at, refusal_bytes(*kind))
        }
        JobError::Misplaced {
            session,
            event,
            kind,
        } => word_line(b"error: misplaced ", *session, *event, place_bytes(*kind)),
        JobError::Oversize { session, event } => pair_line(b"error: oversize ", *session, *event),
        JobError::NoMemory => Line::of(b"error: no memory\n"),
    }
}

/// A line with a number after a text.
fn number_line(text: &[u8], number: u32) -> Line
    requires { length text.now ≤ 64 }
    ensures { result ≡ text.now ++ one_number number }
{
    let mut line = Line::of(text);
    line.push_number(number);
    line.push(b"\n");
    line
}

/// The line for bytes that are not a bundle.
fn bundle_line(at: u32, kind: BadKind) -> Line
    ensures { result ≡ line_of (refusals.BadBundle at kind) }
{
    let mut line = Line::of(b"error: bad bundle at ");
    line.push_number(at);
    line.push(b" ");
    line.push(bundle_bytes(kind));
    line.push(b"\n");
    line
}

fn bundle_bytes(kind: BadKind) -> &'static [u8]
    ensures word { result.now ≡ bundle_word kind }
    ensures few { length result.now ≤ 16 }
{
    kind.word().as_bytes()
}

fn audit_line(error: &AuditError) -> Line
    ensures { result ≡ audit_line error.now }
{
    match error {
        AuditError::Bad { at, kind } => transcript_line(*at, *kind),
        AuditError::Illegal { entry } => entry_line(*entry, b" illegal\n"),
        AuditError::Differs { entry, .. } => entry_line(*entry, b" differs\n"),
        AuditError::Unfinished => Line::of(b"error: transcript unfinished\n"),
        AuditError::NoMemory => Line::of(b"error: no memory\n"),
    }
}

/// The line for bytes that are no transcript.
fn transcript_line(at: u32, kind: TranscriptKind) -> Line
    ensures { result ≡ audit_line (audits.Bad at kind) }
{
    let mut line = Line::of(b"error: transcript at ");
    line.push_number(at);
    line.push(b" ");
    line.push(transcript_bytes(kind));
    line.push(b"\n");
    line
}

fn transcript_bytes(kind: TranscriptKind) -> &'static [u8]
    ensures word { result.now ≡ transcript_word kind }
    ensures few { length result.now ≤ 16 }
{
    match kind {
        TranscriptKind::Short => b"short",
        TranscriptKind::Tag => b"tag",
        TranscriptKind::Length => b"length",
        TranscriptKind::Name => b"name",
        TranscriptKind::Rest => b"rest",
    }
}

/// A line on an entry of a transcript.
fn entry_line(entry: u32, what: &[u8]) -> Line
    requires { length what.now ≤ 16 }
    ensures { result ≡ codes "error: transcript entry " ++ (decimal entry ++ what.now) }
{
    let mut line = Line::of(b"error: transcript entry ");
    line.push_number(entry);
    line.push(what);
    line
}

/// A line with two numbers after a text.
fn pair_line(text: &[u8], first: u32, second: u32) -> Line
    requires { length text.now ≤ 64 }
    ensures { result ≡ text.now ++ two_numbers first second }
{
    let mut line = Line::of(text);
    line.push_number(first);
    line.push(b" ");
    line.push_number(second);
    line.push(b"\n");
    line
}

/// A line with two numbers and a word after a text.
fn word_line(text: &[u8], first: u32, second: u32, word: &[u8]) -> Line
    requires text { length text.now ≤ 64 }
    requires word { length word.now ≤ 16 }
    ensures { result ≡ text.now ++ numbers_and_word first second word.now }
{
    let mut line = Line::of(text);
    line.push_number(first);
    line.push(b" ");
    line.push_number(second);
    line.push(b" ");
    line.push(word);
    line.push(b"\n");
    line
}

fn refusal_bytes(kind: Kind) -> &'static [u8]
    ensures word { result.now ≡ refusal_word kind }
    ensures few { length result.now ≤ 16 }
{
    kind.word().as_bytes()
}

fn place_bytes(kind: PlaceKind) -> &'static [u8]
    ensures word { result.now ≡ place_word kind }
    ensures few { length result.now ≤ 16 }
{
    kind.word().as_bytes()
}

/// The line of a fault of form, with its path.
fn field_line(at: &FieldAt, kind: FieldKind) -> Line
    ensures { result ≡ job_line (errors.BadJob at.now kind) }
{
    let mut line = Line::of(b"error: job $");
    push_section(&mut line, at.section, at.index);
    push_field(&mut line, at.field);
    push_item(&mut line, at.item);
    line.push(b" ");
    line.push(kind_bytes(kind));
    line.push(b"\n");
    line
}

fn kind_bytes(kind: FieldKind) -> &'static [u8]
    ensures word { result.now ≡ kind_word kind }
    ensures few { length result.now ≤ 16 }
{
    kind.word().as_bytes()
}

fn section_bytes(section: Section) -> &'static [u8]
    ensures word { result.now ≡ section_word section }
    ensures few { length result.now ≤ 16 }
{
    section.word().as_bytes()
}

fn field_bytes(field: Field) -> &'static [u8]
    ensures word { result.now ≡ field_word field }
    ensures few { length result.now ≤ 16 }
{
    field.word().as_bytes()
}

fn push_index(line: &mut Line, index: u32)
    requires { length line.old ≤ 200 }
    ensures text { line.new ≡ line.old ++ index_text index }
    ensures few { length line.new ≤ length line.old + 12 }
{
    line.push(b"[");
    line.push_number(index);
    line.push(b"]");
}

/// Appends a part of a job, and the index of an item of it.
fn push_section(line: &mut Line, section: Section, index: u32)
    requires { length line.old ≤ 100 }
    ensures text { line.new ≡ line.old ++ section_text section index }
    ensures few { length line.new ≤ length line.old + 40 }
{
    match section {
        Section::Top => {}
        Section::Bundle => line.push(b".bundle"),
        Section::Places | Section::Artefacts | Section::Sessions | Section::References => {
            line.push(b".");
            line.push(section_bytes(section));
            push_index(line, index);
        }
    }
}

/// Appends a field, if there is one.
fn push_field(line: &mut Line, field: Option<Field>)
    requires { length line.old ≤ 150 }
    ensures text { line.new ≡ line.old ++ field_text field }
    ensures few { length line.new ≤ length line.old + 20 }
{
    let Some(field) = field else {
        return;
    };
    line.push(b".");
    line.push(field_bytes(field));
}

/// Appends the index of an item of a field, if there is one.
fn push_item(line: &mut Line, item: Option<u32>)
    requires { length line.old ≤ 200 }
    ensures text { line.new ≡ line.old ++ item_text item }
    ensures few { length line.new ≤ length line.old + 12 }
{
    let Some(index) = item else {
        return;
    };
    push_index(line, index);
}
