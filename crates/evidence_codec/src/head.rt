ghost use Rattle.std.specs.Prelude.{◌≡◌, IfOk};
ghost use Rattle.evidence_types.specs.Heads.{IsHead, head_of};
ghost use Rattle.evidence_codec.specs.Reading.{nonce_at, usm_at, kim_at, seal_at, hash_at, fields_at, head_at, part_count};
ghost use Rattle.evidence_codec.specs.Decoding.{Gives, counted};

use crate::fault::{BadKind, Stop};
use crate::fields::{answer_at, array_at, mark_at, u32_at};
use crate::version::Version;
use evidence_types::{
    EMPTY_TAG, HASH_TAG, Head, KIM_TAG, NONCE_TAG, PAR_TAG, SEAL_TAG, SEQ_TAG, USM_TAG,
};

#[tactic(auto, unfolding(crate::specs::Reading::nonce_at))]
fn nonce_at(bytes: &[u8]) -> Result<(Head<'_>, &[u8]), Stop>
    ensures read { Gives (λ found. (head_of found.0, found.1.now)) result (nonce_at bytes.now) }
    ensures well_formed { IfOk result (λ found. IsHead (head_of found.0)) }
{
    let (nonce, rest) = array_at::<16>(bytes)?;
    Ok((Head::Nonce(nonce), rest))
}

#[tactic(auto, unfolding(crate::specs::Reading::usm_at))]
fn usm_at(version: Version, bytes: &[u8]) -> Result<(Head<'_>, &[u8]), Stop>
    ensures read { Gives (λ found. (head_of found.0, found.1.now)) result (usm_at version bytes.now) }
    ensures well_formed { IfOk result (λ found. IsHead (head_of found.0)) }
{
    let (event, rest) = u32_at(bytes)?;
    let (mark, rest) = mark_at(version, rest)?;
    let (answer, rest) = answer_at(version, rest)?;
    Ok((Head::Usm(event, mark, answer), rest))
}

#[tactic(auto, unfolding(crate::specs::Reading::kim_at))]
fn kim_at(version: Version, bytes: &[u8]) -> Result<(Head<'_>, &[u8]), Stop>
    ensures read { Gives (λ found. (head_of found.0, found.1.now)) result (kim_at version bytes.now) }
    ensures well_formed { IfOk result (λ found. IsHead (head_of found.0)) }
{
    let (event, rest) = u32_at(bytes)?;
    let (mark, rest) = mark_at(version, rest)?;
    let (answer, rest) = answer_at(version, rest)?;
    Ok((Head::Kim(event, mark, answer), rest))
}

#[tactic(auto, unfolding(crate::specs::Reading::seal_at))]
fn seal_at(bytes: &[u8]) -> Result<(Head<'_>, &[u8]), Stop>
    ensures read { Gives (λ found. (head_of found.0, found.1.now)) result (seal_at bytes.now) }
    ensures well_formed { IfOk result (λ found. IsHead (head_of found.0)) }
{
    let (event, rest) = u32_at(bytes)?;
    let (seal, rest) = array_at::<32>(rest)?;
    Ok((Head::Seal(event, seal), rest))
}

#[tactic(auto, unfolding(crate::specs::Reading::hash_at))]
fn hash_at(bytes: &[u8]) -> Result<(Head<'_>, &[u8]), Stop>
    ensures read { Gives (λ found. (head_of found.0, found.1.now)) result (hash_at bytes.now) }
    ensures well_formed { IfOk result (λ found. IsHead (head_of found.0)) }
{
    let (event, rest) = u32_at(bytes)?;
    let (hash, rest) = array_at::<32>(rest)?;
    Ok((Head::Hash(event, hash), rest))
}

#[tactic(auto, unfolding(crate::specs::Reading::fields_at))]
fn fields_at(version: Version, tag: u8, rest: &[u8]) -> Result<(Head<'_>, &[u8]), Stop>
    ensures read { Gives (λ found. (head_of found.0, found.1.now)) result (fields_at version tag rest.now) }
    ensures well_formed { IfOk result (λ found. IsHead (head_of found.0)) }
{
    match tag {
        EMPTY_TAG => Ok((Head::Empty, rest)),
        NONCE_TAG => nonce_at(rest),
        USM_TAG => usm_at(version, rest),
        KIM_TAG => kim_at(version, rest),
        SEAL_TAG => seal_at(rest),
        HASH_TAG => hash_at(rest),
        SEQ_TAG => Ok((Head::SeqPair, rest)),
        PAR_TAG => Ok((Head::ParPair, rest)),
        _ => Err(Stop::Faulty(0, BadKind::Tag)),
    }
}

/// The head at the front of the bytes, and the bytes behind it.
#[tactic(auto, unfolding(crate::specs::Reading::head_at))]
pub fn head_at(version: Version, bytes: &[u8]) -> Result<(Head<'_>, &[u8]), Stop>
    ensures read { Gives (λ found. (head_of found.0, found.1.now)) result (head_at version bytes.now) }
    ensures well_formed { IfOk result (λ found. IsHead (head_of found.0)) }
{
    let [tag, rest @ ..] = bytes else {
        return Err(Stop::Wanting);
    };
    fields_at(version, *tag, rest)
}

fn part_count(head: &Head<'_>) -> u8
    ensures { result ≡ part_count (head_of head.now) }
{
    match head {
        Head::Empty | Head::Nonce(_) | Head::Hash(_, _) => 0,
        Head::Usm(_, _, _) | Head::Kim(_, _, _) | Head::Seal(_, _) => 1,
        Head::SeqPair | Head::ParPair => 2,
    }
}

/// How many parts the node has whose head stands at the front of the bytes.
pub fn parts_at(version: Version, bytes: &[u8]) -> Result<u8, Stop>
    ensures { Gives (λ count. count) result (counted (head_at version bytes.now)) }
{
    let (head, _) = head_at(version, bytes)?;
    Ok(part_count(&head))
}
