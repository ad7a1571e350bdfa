//! The fields of an entry, each read at the front of bytes.

ghost use Rattle.std.specs.Prelude.{◌≡◌, length, IfOk};
ghost use Rattle.std.specs.Option.{SomeIff};
ghost use Rattle.std.specs.Int.{w16, w32};
ghost use Rattle.phrase_tree.specs.Name.{IsName};
ghost use Rattle.machine_world.specs.Cells.{block_of};
ghost use Rattle.transcript.specs.Reading.{short, bytes_at, number_at, choice_at, block_by, block_at, fault_by, fault_at, named, name_at, answer_at};
ghost use Rattle.transcript.specs.Written.{Gives};

use crate::fault::{Stop, TranscriptKind};
use avm_code::BlockName;
use bench_trait::BenchFault;
use evidence_types::ANSWER_BYTES;
use phrase_tree::{Name, Place};

/// The greatest length of a name, in bytes.
const NAME_BYTES: usize = 32;

/// The bytes end where another one is needed.
pub(crate) fn short() -> Stop
    ensures { result ≡ short }
{
    Stop {
        kind: TranscriptKind::Short,
        left: 0,
    }
}

fn bytes_at(count: usize, bytes: &[u8]) -> Result<(&[u8], &[u8]), Stop>
    ensures { Gives (λ found. (found.0.now, found.1.now)) result (bytes_at count bytes.now) }
{
    if bytes.len() < count {
        return Err(short());
    }
    Ok(bytes.split_at(count))
}

fn array_at<const N: usize>(bytes: &[u8]) -> Result<(&[u8; N], &[u8]), Stop>
    ensures bytes { Gives (λ found. (found.0.now, found.1.now)) result (bytes_at N bytes.now) }
    ensures count { IfOk result (λ found. length found.0.now ≡ N) }
{
    let Some(found) = bytes.split_first_chunk::<N>() else {
        return Err(short());
    };
    Ok(found)
}

pub(crate) fn u32_at(bytes: &[u8]) -> Result<(u32, &[u8]), Stop>
    ensures { Gives (λ found. (found.0, found.1.now)) result (number_at w32 bytes.now) }
{
    let (front, rest) = array_at::<4>(bytes)?;
    Ok((u32::from_be_bytes(*front), rest))
}

fn u16_at(bytes: &[u8]) -> Result<(u16, &[u8]), Stop>
    ensures { Gives (λ found. (found.0, found.1.now)) result (number_at w16 bytes.now) }
{
    let (front, rest) = array_at::<2>(bytes)?;
    Ok((u16::from_be_bytes(*front), rest))
}

/// A byte 0 and nothing, or a byte 1 and four bytes of a number.
#[tactic(auto, unfolding(crate::specs::Reading::choice_at, crate::specs::Reading::choice_by))]
fn u32_choice_at(bytes: &[u8]) -> Result<(Option<u32>, &[u8]), Stop>
    ensures { Gives (λ found. (found.0, found.1.now)) result (choice_at w32 bytes.now) }
{
    let [byte, rest @ ..] = bytes else {
        return Err(short());
    };
    match *byte {
        0 => Ok((None, rest)),
        1 => {
            let (number, behind) = u32_at(rest)?;
            Ok((Some(number), behind))
        }
        _ => Err(Stop {
            kind: TranscriptKind::Tag,
            left: bytes.len(),
        }),
    }
}

/// A byte 0 and nothing, or a byte 1 and two bytes of a number.
#[tactic(auto, unfolding(crate::specs::Reading::choice_at, crate::specs::Reading::choice_by))]
fn u16_choice_at(bytes: &[u8]) -> Result<(Option<u16>, &[u8]), Stop>
    ensures { Gives (λ found. (found.0, found.1.now)) result (choice_at w16 bytes.now) }
{
    let [byte, rest @ ..] = bytes else {
        return Err(short());
    };
    match *byte {
        0 => Ok((None, rest)),
        1 => {
            let (number, behind) = u16_at(rest)?;
            Ok((Some(number), behind))
        }
        _ => Err(Stop {
            kind: TranscriptKind::Tag,
            left: bytes.len(),
        }),
    }
}

fn block_by(choice: Option<u32>) -> BlockName
    ensures { block_of result ≡ block_by choice }
{
    match choice {
        None => BlockName::Root,
        Some(number) => BlockName::Of(number),
    }
}

fn fault_by(choice: Option<u16>) -> BenchFault
    ensures { result ≡ fault_by choice }
{
    match choice {
        None => BenchFault::NoArtefact,
        Some(code) => BenchFault::Broken(code),
    }
}

/// The name of a block.
#[tactic(auto, unfolding(crate::specs::Reading::block_at))]
pub(crate) fn block_at(bytes: &[u8]) -> Result<(BlockName, &[u8]), Stop>
    ensures { Gives (λ found. (block_of found.0, found.1.now)) result (block_at bytes.now) }
{
    let (choice, rest) = u32_choice_at(bytes)?;
    Ok((block_by(choice), rest))
}

/// A fault.
#[tactic(auto, unfolding(crate::specs::Reading::fault_at))]
pub(crate) fn fault_at(bytes: &[u8]) -> Result<(BenchFault, &[u8]), Stop>
    ensures { Gives (λ found. (found.0, found.1.now)) result (fault_at bytes.now) }
{
    let (choice, rest) = u16_choice_at(bytes)?;
    Ok((fault_by(choice), rest))
}

#[tactic(auto, using(crate::proofs::NameLemmas::name_utf8))]
fn name_of(text: &[u8]) -> Option<Name>
    ensures { SomeIff result (IsName text.now) text.now }
{
    let Ok(text) = str::from_utf8(text) else {
        return None;
    };
    Name::read(text)
}

/// A text that must be a name, where it stands at the front of bytes, and what stands behind it.
#[tactic(auto, unfolding(crate::specs::Reading::named))]
fn named<'a>(bytes: &[u8], text: &[u8], behind: &'a [u8]) -> Result<(Place, &'a [u8]), Stop>
    ensures { Gives (λ found. (found.0, found.1.now)) result (named bytes.now (text.now, behind.now)) }
{
    match name_of(text) {
        Some(name) => Ok((name, behind)),
        None => Err(Stop {
            kind: TranscriptKind::Name,
            left: bytes.len(),
        }),
    }
}

/// The name of a place: one byte of length from 1 to 32, and that many bytes.
#[tactic(auto, unfolding(crate::specs::Reading::name_at, crate::specs::Reading::name_by))]
pub(crate) fn name_at(bytes: &[u8]) -> Result<(Place, &[u8]), Stop>
    ensures { Gives (λ found. (found.0, found.1.now)) result (name_at bytes.now) }
{
    let [count, rest @ ..] = bytes else {
        return Err(short());
    };
    let count = *count as usize;
    if 1 <= count && count <= NAME_BYTES {
        let (text, behind) = bytes_at(count, rest)?;
        named(rest, text, behind)
    } else {
        Err(Stop {
            kind: TranscriptKind::Length,
            left: bytes.len(),
        })
    }
}

/// An answer: two bytes of length up to 1,024, and that many bytes.
#[tactic(auto, unfolding(crate::specs::Reading::answer_at))]
pub(crate) fn answer_at(bytes: &[u8]) -> Result<(&[u8], &[u8]), Stop>
    ensures { Gives (λ found. (found.0.now, found.1.now)) result (answer_at bytes.now) }
{
    let (count, rest) = u16_at(bytes)?;
    if count as usize > ANSWER_BYTES {
        return Err(Stop {
            kind: TranscriptKind::Length,
            left: bytes.len(),
        });
    }
    bytes_at(count as usize, rest)
}
