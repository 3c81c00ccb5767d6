// The tokens that are given out, and what they are worth.
ghost use Rattle.std.specs.Prelude.{◌≡◌, ◌++◌, ◌∷◌, List, ℕ, decimal, take, IfOk, OnOk};
ghost use Rattle.sha2.specs.Hashers.{Holds256};
ghost use Rattle.hex.specs.Hex.{encode_lower};
ghost use Rattle.dl_token.specs.Links as links;
ghost use Rattle.dl_token.specs.Tokens as meaning;

use crate::Verdict;
use crate::form::parted;
use crate::hmac::{digest_of_two, padded};
use crate::printed::link_text;
use dl_base::{LinkNo, Memory, Path, Text, Token};
use itoa::Buffer;
use sha2::{Digest, Sha256};
use std::alloc::Global;

/// The token for reading the file of a path by a link, good up to the expiry, in seconds. It takes no memory.
pub fn token(key: &[u8; 32], path: &Path, link: LinkNo, expiry: u64) -> Token
    ensures { result ≡ meaning.token key.now path.now link expiry }
{
    Token {
        expiry,
        mac: mac(key, path, link, expiry),
    }
}

/// Up to when a token is good that is given out at a moment for a life, all in seconds. It takes no memory.
pub fn expiry_after(now: u64, life: u64) -> u64
    ensures { result ≡ meaning.expiry_after now life }
{
    now.saturating_add(life)
}

/// What a token is worth for reading the file of a path by a link, at a moment in seconds. It is good at its expiry still.
/// It takes no memory.
#[tactic(auto, unfolding(crate::specs::Tokens::verdict))]
pub fn verify(key: &[u8; 32], path: &Path, link: LinkNo, now: u64, token: &Token) -> Verdict
    ensures { result ≡ meaning.verdict key.now path.now link now token.now }
{
    if token.mac != mac(key, path, link, token.expiry) {
        return Verdict::Wrong;
    }
    if token.expiry < now {
        return Verdict::Expired(token.expiry);
    }
    Verdict::Good
}

/// A path or a location with a token and a semicolon before its last name, which is what follows its last slash, or all
/// of it where it has none.
#[tactic(auto, unfolding(crate::specs::Tokens::with_token))]
pub fn with_token(alloc: Global, text: &[u8], token: &Token) -> Result<Text, Memory>
    ensures { IfOk result (λ made. made ≡ meaning.with_token text.now token.now) }
{
    let (folder, name) = parted(text);
    let mut items = Vec::from_slice(alloc, folder)?;
    put_token(&mut items, token)?;
    items.push(b';')?;
    items.extend_from_slice(name)?;
    Ok(Text::from_vec(items))
}

fn put_token(items: &mut Vec<u8>, token: &Token) -> Result<(), Memory>
    ensures { OnOk result (items.new.items ≡ items.old.items ++ meaning.token_text token.now) }
{
    let mut buffer = Buffer::new();
    items.extend_from_slice(buffer.format(token.expiry).as_bytes())?;
    items.push(b'.')?;
    items.extend_from_slice(&digits(&token.mac))?;
    Ok(())
}

fn digits(mac: &[u8; 16]) -> [u8; 32]
    ensures { result ≡ encode_lower mac.now }
{
    let mut out = [0u8; 32];
    let _ = hex::encode_to_slice(mac.as_slice(), &mut out);
    out
}

// The first 16 bytes of the HMAC of path, link and expiry.
#[tactic(auto, unfolding(crate::specs::Tokens::mac, crate::specs::Hmac::hmac))]
fn mac(key: &[u8; 32], path: &Path, link: LinkNo, expiry: u64) -> [u8; 16]
    ensures { result ≡ meaning.mac key.now path.now link expiry }
{
    let mut hasher = Sha256::new();
    hasher.update(padded(0x36, key).as_slice());
    feed_message(&mut hasher, path, link, expiry);
    let inner = hasher.finalize();
    first_half(&digest_of_two(&padded(0x5c, key), &inner))
}

fn feed_message(hasher: &mut Sha256, path: &Path, link: LinkNo, expiry: u64)
    ensures { (m : List ℕ) → Holds256 hasher.old m → Holds256 hasher.new (m ++ meaning.token_message path.now link expiry) }
{
    feed_link(hasher, path, link);
    feed_expiry(hasher, expiry);
}

fn feed_link(hasher: &mut Sha256, path: &Path, link: LinkNo)
    ensures { (m : List ℕ) → Holds256 hasher.old m → Holds256 hasher.new (m ++ (path.now ++ 0 ∷ links.link_text link)) }
{
    hasher.update(path.bytes());
    hasher.update([0u8].as_slice());
    hasher.update(link_text(link).bytes());
}

fn feed_expiry(hasher: &mut Sha256, expiry: u64)
    ensures { (m : List ℕ) → Holds256 hasher.old m → Holds256 hasher.new (m ++ 0 ∷ decimal expiry) }
{
    let mut buffer = Buffer::new();
    hasher.update([0u8].as_slice());
    hasher.update(buffer.format(expiry));
}

fn first_half(digest: &[u8; 32]) -> [u8; 16]
    ensures { result ≡ take 16 digest.now }
{
    let mut half = [0u8; 16];
    half.copy_from_slice(&digest[..16]);
    half
}
