// HMAC over SHA-256.
ghost use Rattle.std.specs.Prelude.{◌≡◌, ◌≤◌, ◌++◌, length};
ghost use Rattle.sha2.specs.Sha256.{sha256};
ghost use Rattle.dl_token.specs.Hmac.{padded, hmac};

use sha2::{Digest, Sha256};

/// HMAC (RFC 2104) of a message, over SHA-256 (FIPS 180-4). It takes no memory.
#[tactic(auto, unfolding(crate::specs::Hmac::hmac))]
pub fn hmac_sha256(key: &[u8], message: &[u8]) -> [u8; 32]
    requires { length key.now ≤ 64 }
    ensures { result ≡ hmac key.now message.now }
{
    let inner = digest_of_two(&padded(0x36, key), message);
    digest_of_two(&padded(0x5c, key), &inner)
}

// The key, padded with zeros to 64 bytes, with each byte xor b.
pub(crate) fn padded(b: u8, key: &[u8]) -> [u8; 64]
    requires { length key.now ≤ 64 }
    ensures { result ≡ padded b key.now }
{
    let mut block = [b; 64];
    for i in 0..key.len() {
        block[i] = key[i] ^ b;
    }
    block
}

// The digest of two parts, taken as one message.
pub(crate) fn digest_of_two(first: &[u8], second: &[u8]) -> [u8; 32]
    ensures { result ≡ sha256 (first.now ++ second.now) }
{
    let mut hasher = Sha256::new();
    hasher.update(first);
    hasher.update(second);
    hasher.finalize()
}
