ghost use Rattle.std.specs.Prelude.{◌≡◌, ◌≤◌, ◌++◌, ◌^◌, drop, length, IfOk};

use phrase_tree::NoMemory;
use std::alloc::Global;

/// The least number of bytes for which room is made at once.
const LEAST_ROOM: usize = 256;

/// Writes a piece ahead of the bytes that stand from a place on; what is returned is the place of its first
/// byte.
pub(crate) fn write_ahead(bytes: &mut [u8], start: usize, piece: &[u8]) -> usize
    requires room { length piece.now ≤ start }
    requires within { start ≤ length bytes.old }
    ensures written { drop result bytes.new ≡ piece.now ++ drop start bytes.old }
    ensures within { result ≤ length bytes.new }
{
    let at = start - piece.len();
    bytes[at..start].copy_from_slice(piece);
    at
}

/// The bytes that stand, behind room for so many more, and for no fewer than stand; what is returned beside
/// them is the place of the first.
pub(crate) fn with_room(
    alloc: Global,
    standing: &[u8],
    more: usize,
) -> Result<(Vec<u8>, usize), NoMemory>
    requires { more ≤ 2 ^ 63 }
    ensures bytes { IfOk result (λ made. drop made.1 made.0.items ≡ standing.now) }
    ensures room { IfOk result (λ made. more ≤ made.1) }
    ensures within { IfOk result (λ made. made.1 ≤ length made.0.items) }
{
    let room = more.max(standing.len()).max(LEAST_ROOM);
    let mut bytes = Vec::with_capacity(alloc, room + standing.len())?;
    bytes.resize(room, 0)?;
    bytes.extend_from_slice(standing)?;
    Ok((bytes, room))
}
