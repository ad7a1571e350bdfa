ghost use Rattle.std.specs.Prelude.{◌≡◌, ◌<◌, ◌^◌, replicate, length, map, IfOk};
ghost use Rattle.phrase_tree.specs.Term.{term};
ghost use Rattle.place_check.specs.Session.{session_of};
ghost use Rattle.load_maker.specs.Made.{Makes};
ghost use Rattle.load_maker.specs.Places.{made_places};
ghost use Rattle.load_maker.specs.Sessions.{four_arms, made_nonce, made_session, made_sessions};

use crate::draws::Draws;
use crate::names::place_name;
use crate::phrases::{drawn_phrase, in_parallel};
use phrase_tree::{NoMemory, Phrase, Split};
use place_check::{Checked, Places, check};
use std::alloc::Global;

/// How deep the parts of an arm nest.
const DEPTH: u32 = 3;

/// How many sessions a made job has.
const SESSIONS: u32 = 256;

const BOTH: Split = Split {
    left: true,
    right: true,
};

/// The phrase of one session.
fn four_arms(alloc: Global, draws: &mut Draws) -> Result<Phrase, NoMemory>
    ensures { Makes term (four_arms draws.old) result draws.new }
{
    let first = drawn_phrase(alloc, DEPTH, draws)?;
    let second = drawn_phrase(alloc, DEPTH, draws)?;
    let third = drawn_phrase(alloc, DEPTH, draws)?;
    let fourth = drawn_phrase(alloc, DEPTH, draws)?;
    let last = in_parallel(alloc, BOTH, third, fourth)?;
    let behind = in_parallel(alloc, BOTH, second, last)?;
    in_parallel(alloc, BOTH, first, behind)
}

fn zeros<const N: usize>() -> [u8; N]
    ensures { result ≡ replicate N 0 }
{
    [0; N]
}

fn made_nonce(number: u32, index: u32) -> [u8; 16]
    ensures { result ≡ made_nonce number index }
{
    let mut nonce = zeros::<16>();
    nonce[..8].copy_from_slice(&u64::from(number).to_be_bytes());
    nonce[8..].copy_from_slice(&u64::from(index).to_be_bytes());
    nonce
}

fn made_session(
    alloc: Global,
    places: &Places,
    number: u32,
    index: u32,
    draws: &mut Draws,
) -> Result<Checked, NoMemory>
    requires { places.now ≡ made_places }
    ensures { Makes session_of (made_session number index draws.old) result draws.new }
{
    let phrase = four_arms(alloc, draws)?;
    let root = place_name(index % 8);
    let nonce = made_nonce(number, index);
    match check(places, root, nonce, phrase) {
        Ok(checked) => Ok(checked),
        Err(_) => unreachable!(),
    }
}

/// The sessions of a made job.
pub(crate) fn made_sessions(
    alloc: Global,
    places: &Places,
    number: u32,
    draws: &mut Draws,
) -> Result<Vec<Checked>, NoMemory>
    requires { places.now ≡ made_places }
    ensures { Makes (λ list. map session_of list.items) (made_sessions number 256 draws.old) result draws.new }
{
    let mut sessions = Vec::new(alloc);
    for index in 0..SESSIONS {
        let session = made_session(alloc, places, number, index, draws)?;
        sessions.push(session)?;
    }
    Ok(sessions)
}
