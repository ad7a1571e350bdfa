ghost use Rattle.std.specs.Prelude.{◌≡◌, ◌≤◌, length, IfOk};
ghost use Rattle.std.specs.Int.{w16, w32};
ghost use Rattle.evidence_types.specs.Answer.{FitsAnswer};
ghost use Rattle.evidence_codec.specs.Reading.{bytes_at, number_at, mark_at, answer_at, answer_of_length, length_index};
ghost use Rattle.evidence_codec.specs.Decoding.{Gives};

use crate::fault::{BadKind, Stop};
use crate::version::Version;
use evidence_types::ANSWER_BYTES;

pub fn bytes_at(count: usize, bytes: &[u8]) -> Result<(&[u8], &[u8]), Stop>
    ensures { Gives (λ found. (found.0.now, found.1.now)) result (bytes_at count bytes.now) }
{
    if bytes.len() < count {
        return Err(Stop::Wanting);
    }
    Ok(bytes.split_at(count))
}

pub fn array_at<const N: usize>(bytes: &[u8]) -> Result<(&[u8; N], &[u8]), Stop>
    ensures bytes { Gives (λ found. (found.0.now, found.1.now)) result (bytes_at N bytes.now) }
    ensures count { IfOk result (λ found. length found.0.now ≡ N) }
{
    let Some(found) = bytes.split_first_chunk::<N>() else {
        return Err(Stop::Wanting);
    };
    Ok(found)
}

pub fn u32_at(bytes: &[u8]) -> Result<(u32, &[u8]), Stop>
    ensures { Gives (λ found. (found.0, found.1.now)) result (number_at w32 bytes.now) }
{
    let (front, rest) = array_at::<4>(bytes)?;
    Ok((u32::from_be_bytes(*front), rest))
}

pub fn u16_at(bytes: &[u8]) -> Result<(u16, &[u8]), Stop>
    ensures { Gives (λ found. (found.0, found.1.now)) result (number_at w16 bytes.now) }
{
    let (front, rest) = array_at::<2>(bytes)?;
    Ok((u16::from_be_bytes(*front), rest))
}

#[tactic(auto, unfolding(crate::specs::Reading::mark_at))]
pub fn mark_at(version: Version, bytes: &[u8]) -> Result<(Option<u8>, &[u8]), Stop>
    ensures { Gives (λ found. (found.0, found.1.now)) result (mark_at version bytes.now) }
{
    match version {
        Version::Plain => Ok((None, bytes)),
        Version::Marked => match bytes {
            [mark, rest @ ..] => Ok((Some(*mark), rest)),
            [] => Err(Stop::Wanting),
        },
    }
}

fn length_index(version: Version) -> u32
    ensures { result ≡ length_index version }
{
    match version {
        Version::Plain => 5,
        Version::Marked => 6,
    }
}

#[tactic(auto, unfolding(crate::specs::Reading::answer_of_length))]
fn answer_of_length(version: Version, count: u16, bytes: &[u8]) -> Result<(&[u8], &[u8]), Stop>
    ensures bytes { Gives (λ found. (found.0.now, found.1.now)) result (answer_of_length version count bytes.now) }
    ensures few { IfOk result (λ found. FitsAnswer found.0.now) }
{
    if count as usize > ANSWER_BYTES {
        return Err(Stop::Faulty(length_index(version), BadKind::Length));
    }
    bytes_at(count as usize, bytes)
}

#[tactic(auto, unfolding(crate::specs::Reading::answer_at))]
pub fn answer_at(version: Version, bytes: &[u8]) -> Result<(&[u8], &[u8]), Stop>
    ensures bytes { Gives (λ found. (found.0.now, found.1.now)) result (answer_at version bytes.now) }
    ensures few { IfOk result (λ found. FitsAnswer found.0.now) }
{
    let (count, rest) = u16_at(bytes)?;
    answer_of_length(version, count, rest)
}
