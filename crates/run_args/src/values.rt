// The values of options.
ghost use Rattle.std.specs.Prelude.{◌≡◌, ◌≤◌, IfSome};
ghost use Rattle.std.specs.List.{list_all};
ghost use Rattle.dl_base.specs.Digits.{number_in};
ghost use Rattle.run_args.specs.Words.{AnswersAs, is_lower, is_server_byte, is_server, server_in, key_in};

use crate::fault::WordsFault;
use dl_base::{Name, is_name};
use hex::FromHex;
use std::alloc::Global;

fn is_lower(byte: u8) -> bool
    ensures { result ≡ is_lower byte }
{
    byte.is_ascii_lowercase()
}

fn are_server_bytes(text: &[u8]) -> bool
    ensures { result ≡ list_all is_server_byte text.now }
{
    text.iter().all(|b| is_lower(*b) || b.is_ascii_digit())
}

#[tactic(auto, unfolding(crate::specs::Words::is_server))]
fn is_server(text: &[u8]) -> bool
    ensures { result ≡ is_server text.now }
{
    is_name(text) && are_server_bytes(text)
}

/// The name of a server.
#[tactic(auto, unfolding(crate::specs::Words::is_server))]
pub(crate) fn server_in(alloc: Global, text: &[u8]) -> Result<Name, WordsFault>
    ensures { AnswersAs result (server_in text.now) }
{
    if !is_server(text) {
        return Err(WordsFault::Usage);
    }
    Ok(Name::of(alloc, text)?)
}

/// The bytes of 64 hexadecimal digits. It takes no memory.
#[tactic(auto, unfolding(crate::specs::Words::key_in))]
pub(crate) fn key_in(text: &[u8]) -> Option<[u8; 32]>
    ensures { result ≡ key_in text.now }
{
    if text.len() != 64 {
        return None;
    }
    match <[u8; 32] as FromHex>::from_hex(text) {
        Ok(key) => Some(key),
        Err(_) => None,
    }
}

/// A number of at most 20 digits between two bounds. It takes no memory.
#[tactic(auto, unfolding(dl_base::specs::Digits::number_in))]
pub(crate) fn number_in(least: u64, most: u64, text: &str) -> Option<u64>
    ensures exact { result ≡ number_in 20 least most text.now }
    ensures bounded { IfSome result (λ n. (least ≤ n) × (n ≤ most)) }
{
    dl_base::number_in(20, least, most, text.as_bytes())
}
