// The texts of a datalink.
ghost use Rattle.std.specs.Prelude.{◌≡◌, ◌==◌, ◌≤◌, length, IfOk};
ghost use Rattle.std.specs.List.{position_or_len};
ghost use Rattle.std.specs.Str.{str_to_ascii_uppercase};
ghost use Rattle.dl_location.specs.Accessors as meaning;

use dl_base::{Dl, Memory, Text};
use std::alloc::Global;

/// Which text of a datalink is asked for; in SQL the functions DLCOMMENT, DLLINKTYPE, DLURLSCHEME, DLURLSERVER,
/// DLURLPATHONLY and DLURLCOMPLETE.
#[derive(Clone, Copy, PartialEq, Eq)]
pub enum Accessor {
    Comment,
    /// Always `URL`.
    LinkType,
    /// The scheme of the location, in upper case.
    Scheme,
    /// The host of the location, in upper case.
    Server,
    /// The path alone.
    PathOnly,
    /// The location, in its own case.
    Complete,
}

/// A text of a datalink, without a token. A part that the location lacks is empty.
pub fn accessor_text(alloc: Global, which: Accessor, link: &Dl) -> Result<Text, Memory>
    ensures { IfOk result (λ text. text ≡ meaning.accessor_text which link.now) }
{
    match which {
        Accessor::Comment => link.comment.copy(),
        Accessor::LinkType => Text::of(alloc, b"URL"),
        Accessor::Scheme => upper_case(alloc, scheme_part(link.location.bytes())),
        Accessor::Server => upper_case(alloc, host_part(link.location.bytes())),
        Accessor::PathOnly => Text::of(alloc, link.path.bytes()),
        Accessor::Complete => link.location.copy(),
    }
}

fn upper_case(alloc: Global, bytes: &[u8]) -> Result<Text, Memory>
    ensures { IfOk result (λ text. text ≡ str_to_ascii_uppercase bytes.now) }
{
    let items: Vec<u8> = bytes.iter().map(|b| b.to_ascii_uppercase()).collect(alloc)?;
    Ok(Text::from_vec(items))
}

// What stands before the first colon, and nothing where there is none.
fn scheme_part(location: &[u8]) -> &[u8]
    ensures { result.now ≡ meaning.scheme_part location.now }
{
    if !location.contains(&b':') {
        return &[];
    }
    let (scheme, _) = location.split_at(place_of(location, b':'));
    scheme
}

/// The host of a location, in its own case: what stands between the first two slashes in a row and the next slash or the end.
pub fn host_part(location: &[u8]) -> &[u8]
    ensures { result.now ≡ meaning.host_part location.now }
{
    let behind = behind_slashes(location);
    let (host, _) = behind.split_at(place_of(behind, b'/'));
    host
}

// The place of the first such byte, from 0, or the length where there is none.
fn place_of(bytes: &[u8], wanted: u8) -> usize
    ensures value { result ≡ position_or_len (λ b. b == wanted) bytes.now }
    ensures within { result ≤ length bytes.now }
{
    bytes.iter().take_while(|b| **b != wanted).count()
}

// What stands behind the first two slashes in a row, and nothing where there are none.
fn behind_slashes(bytes: &[u8]) -> &[u8]
    ensures { result.now ≡ meaning.behind_slashes bytes.now }
{
    let mut rest = bytes;
    while let Some((first, others)) = rest.split_first() {
        if *first == b'/' && begins_with_slash(others) {
            let (_, behind) = others.split_at(1);
            return behind;
        }
        rest = others;
    }
    rest
}

fn begins_with_slash(bytes: &[u8]) -> bool
    ensures { result ≡ meaning.begins_with_slash bytes.now }
{
    match bytes.first() {
        Some(b) => *b == b'/',
        None => false,
    }
}
