// The bytes of an area, read as records.
ghost use Rattle.std.specs.Prelude.{◌≡◌, ◌≢◌, ◌+◌, ◌<◌, ◌≤◌, ◌^◌, ◌++◌, [], ◌∷◌, List as Items, ℕ, length, false, Some, Err, IfOk, IfSome, IfNone};
ghost use Rattle.std.specs.Int.{to_be_bytes, from_be_bytes, w64};
ghost use Rattle.dl_journal.specs.Records.{IsAtRest, is_whole, size, records};

use dl_base::{BeginFault, List, Memory, Text};
use std::alloc::Global;

fn header_value(header: &[u8]) -> u64
    requires { length header.now ≡ 8 }
    ensures value { result ≡ from_be_bytes w64 header.now }
    ensures bytes { to_be_bytes w64 result ≡ header.now }
{
    u64::from_be_bytes([
        header[0], header[1], header[2], header[3], header[4], header[5], header[6], header[7],
    ])
}

/// The body and what follows it, of what stands behind an open gate.
/// `None` where the length, the body or the byte behind it pass the end.
fn record_at(behind: &[u8]) -> Option<(&[u8], &[u8])>
    ensures whole { IfSome result (λ parts. (0 < length parts.1.now)
        × (behind.now ≡ to_be_bytes w64 (length parts.0.now) ++ (parts.0.now ++ parts.1.now))) }
    ensures bad { IfNone result (is_whole behind.now ≡ false) }
{
    if behind.len() <= 8 {
        return None;
    }
    let (header, rest) = behind.split_at(8);
    let count = header_value(header);
    if count >= rest.len() as u64 {
        return None;
    }
    Some(rest.split_at(count as usize))
}

/// The bodies of an area of two bytes or more, and the place of the closed gate behind them.
pub fn parse(alloc: Global, bytes: &[u8]) -> Result<(List<Text>, u64), BeginFault>
    requires enough { 2 ≤ length bytes.now }
    requires fits { length bytes.now ≤ 2 ^ 63 }
    ensures found { IfOk result (λ parts. IsAtRest parts.0 bytes.now × (size parts.0 ≡ parts.1)) }
    ensures bad { (place : ℕ) → result ≡ Err (BeginFault.NotAJournal place) → records bytes.now ≡ Err place }
    ensures no_device { result ≢ Err BeginFault.Device }
{
    let mut bodies = List::empty(alloc);
    let mut rest = bytes;
    let mut place: u64 = 0;
    while rest[0] == 1 {
        let Some((body, next)) = record_at(&rest[1..]) else {
            return Err(BeginFault::NotAJournal(place));
        };
        let text = Text::of(alloc, body)?;
        match bodies.push(text) {
            Ok(()) => {}
            Err((_, Memory)) => return Err(BeginFault::Memory),
        }
        place += 9 + body.len() as u64;
        rest = next;
    }
    Ok((bodies, place))
}

/// The place of the gate of the last of these records, which end at this place.
pub fn last_gate(bodies: &List<Text>, place: u64) -> Option<u64>
    requires { size bodies.now ≡ place }
    ensures is { (front : Items (Items ℕ)) (last : Items ℕ) → bodies.now ≡ front ++ last ∷ [] → result ≡ Some (size front) }
    ensures before { IfSome result (λ gate. gate < place) }
    ensures none { IfNone result (bodies.now ≡ []) }
{
    let last = bodies.as_slice().last()?;
    Some(place - 9 - last.len() as u64)
}
