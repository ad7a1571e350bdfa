ghost use Rattle.std.specs.Prelude.{◌≡◌};
ghost use Rattle.seal_hmac.specs.Hmac.{hmac};

use crate::hashers::Mac;

/// The code of these bytes under this key (RFC 2104).
pub fn mac(key: &[u8], bytes: &[u8]) -> [u8; 32]
    ensures { result ≡ hmac key.now bytes.now }
{
    let mut mac = Mac::new(key);
    mac.update(bytes);
    mac.finish()
}
