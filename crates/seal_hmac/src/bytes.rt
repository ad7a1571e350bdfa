ghost use Rattle.std.specs.Prelude.{◌≡◌, ◌≤◌, ◌-◌, ◌++◌, length, map, replicate, bit_xor, IsTrue, ◌↔◌};
ghost use Rattle.seal_hmac.specs.Hmac.{masked};

pub(crate) fn zeros<const N: usize>() -> [u8; N]
    ensures { result ≡ replicate N 0 }
{
    [0; N]
}

pub(crate) fn padded<const N: usize>(bytes: &[u8]) -> [u8; N]
    requires { length bytes.now ≤ N }
    ensures { result ≡ bytes.now ++ replicate (N - length bytes.now) 0 }
{
    let mut padded = zeros::<N>();
    padded[..bytes.len()].copy_from_slice(bytes);
    padded
}

fn mask_each(mask: u8, bytes: &mut [u8])
    ensures { bytes.new ≡ masked mask bytes.old }
{
    for byte in bytes.iter_mut() {
        *byte ^= mask;
    }
}

pub(crate) fn masked(mask: u8, block: [u8; 64]) -> [u8; 64]
    ensures { result ≡ masked mask block }
{
    let mut masked = block;
    mask_each(mask, &mut masked);
    masked
}

/// Whether these bytes are the same.
///
/// It looks at every byte, even after the first that differs: with an early exit, the time taken would
/// grow with the part of a forged code that is right, and so tell a forger the right code byte by byte.
pub fn same(a: &[u8; 32], b: &[u8; 32]) -> bool
    ensures { IsTrue result ↔ (a.now ≡ b.now) }
{
    let mut difference = 0;
    for at in 0..32 {
        difference |= a[at] ^ b[at];
    }
    difference == 0
}
