ghost use Rattle.std.specs.Prelude.{◌≡◌, ◌<◌, ◌^◌, length};
ghost use Rattle.job_reader.specs.Texts.{written_sessions};
ghost use Rattle.job_reader.specs.Whole.{FindsTwoNonces};
ghost use Rattle.job_reader.specs.Testing.{AddsNonce, Passes};

use crate::refusal::JobError;
use crate::sessions::SessionText;
use std::alloc::Global;
use std::collections::BTreeMap;

/// Puts a nonce into an index of nonces, which has the number of each.
fn add_nonce(
    nonces: &mut BTreeMap<[u8; 16], u32>,
    nonce: [u8; 16],
    second: u32,
) -> Result<(), JobError>
    ensures { AddsNonce nonces.old nonces.new nonce second result }
{
    if let Some(first) = nonces.get(&nonce) {
        return Err(JobError::RepeatedNonce {
            first: *first,
            second,
        });
    }
    match nonces.insert(nonce, second) {
        Ok(_) => Ok(()),
        Err(_) => Err(JobError::NoMemory),
    }
}

/// Whether the nonces of the sessions are all different. For each it takes time in the logarithm of
/// their number.
pub(crate) fn check_nonces(alloc: Global, sessions: &[SessionText<'_>]) -> Result<(), JobError>
    requires { length sessions.now < 2 ^ 32 }
    ensures { Passes (FindsTwoNonces (written_sessions sessions.now)) (λ done. Unit {0}) result }
{
    let mut nonces = BTreeMap::new(alloc);
    for (index, session) in sessions.iter().enumerate() {
        match add_nonce(&mut nonces, session.nonce, index as u32) {
            Ok(()) => {}
            Err(error) => return Err(error),
        }
    }
    Ok(())
}
