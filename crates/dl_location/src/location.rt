// Which texts are locations.
ghost use Rattle.std.specs.Prelude.{◌≡◌, false, MatchResult, IfOk, Ok, Err, None};
ghost use Rattle.std.specs.Str.{is_utf8};
ghost use Rattle.url.specs.Parts.{serialize};
ghost use Rattle.dl_base.specs.Path.{IsPath};
ghost use Rattle.dl_location.specs.Location as meaning;
ghost use Rattle.dl_location.specs.Numbers.{bad_link_number};
ghost use Rattle.dl_location.specs.declared.location.LocationFault.TheVariants as faults;

use dl_base::{BadLink, Memory, Name, Path, Text, is_path};
use std::alloc::Global;
use thiserror::Error;
use url::{ParseError, Url};

/// Why a text gives no location.
#[derive(Clone, Copy, Debug, PartialEq, Eq, Error)]
pub enum LocationFault {
    /// The first cause that applies, of `BadLink::NotUrl` to `BadLink::Path`.
    #[error("the text is no location: {0:?}")]
    Bad(BadLink),
    /// No memory, also where the text is longer than the URL reader takes.
    #[error("no memory")]
    Memory,
}

impl From<Memory> for LocationFault {
    ghost from_gives = { λ _ e. e ≡ faults.Memory };

    fn from(_: Memory) -> LocationFault {
        LocationFault::Memory
    }
}

/// The number of a refusal, from 1, in the order in which they are tested.
pub fn bad_link_number(bad: BadLink) -> u8
    ensures { result ≡ bad_link_number bad }
{
    match bad {
        BadLink::NotUrl => 1,
        BadLink::Scheme => 2,
        BadLink::Host => 3,
        BadLink::Extra => 4,
        BadLink::Path => 5,
        BadLink::LinkType => 6,
        BadLink::Comment => 7,
    }
}

/// The kept location and path of a text on a server: the serialization of its URL and the URL's path, by the URL Standard's
/// parse without a base. A refusal is the first that applies, of `BadLink::NotUrl` to `BadLink::Path`.
#[tactic(auto, unfolding(crate::specs::Location::location))]
pub fn read_location(
    alloc: Global,
    server: &Name,
    text: &[u8],
) -> Result<(Text, Path), LocationFault>
    ensures value { MatchResult result (λ kept. meaning.location server.now text.now ≡ Ok (kept.0, kept.1))
        (λ e. meaning.IsFault e (meaning.location server.now text.now)) }

    // Bytes that are no text are refused without memory.
    ensures no_text { is_utf8 text.now ≡ false → result ≡ Err (LocationFault.Bad BadLink.NotUrl) }
{
    let Ok(text) = str::from_utf8(text) else {
        return Err(LocationFault::Bad(BadLink::NotUrl));
    };
    match Url::parse(alloc, text) {
        Ok(url) => match refusal(server, &url) {
            Some(bad) => Err(LocationFault::Bad(bad)),
            None => Ok(kept(alloc, &url)?),
        },
        Err(ParseError::OutOfMemory) => Err(LocationFault::Memory),
        Err(ParseError::Overflow) => Err(LocationFault::Memory),
        Err(_) => Err(LocationFault::Bad(BadLink::NotUrl)),
    }
}

// The first refusal of a URL that applies.
fn refusal(server: &Name, url: &Url) -> Option<BadLink>
    ensures value { result ≡ meaning.refusal server.now url.now }
    ensures path { result ≡ None → IsPath url.now.path }
{
    if !is_web_or_file(url) {
        return Some(BadLink::Scheme);
    }
    let Some(host) = url.host_str() else {
        return Some(BadLink::Host);
    };
    if host.as_bytes() != server.bytes() {
        return Some(BadLink::Host);
    }
    if has_extra(url) {
        return Some(BadLink::Extra);
    }
    if !is_path(url.path().as_bytes()) {
        return Some(BadLink::Path);
    }
    None
}

fn is_web_or_file(url: &Url) -> bool
    ensures { result ≡ meaning.is_web_or_file url.now.scheme }
{
    let scheme = url.scheme();
    scheme == "http" || scheme == "file"
}

fn has_extra(url: &Url) -> bool
    ensures { result ≡ meaning.has_extra url.now }
{
    !url.username().is_empty()
        || url.password().is_some()
        || url.port().is_some()
        || url.query().is_some()
        || url.fragment().is_some()
}

fn kept(alloc: Global, url: &Url) -> Result<(Text, Path), Memory>
    requires { IsPath url.now.path }
    ensures { IfOk result (λ kept. (kept.0 ≡ serialize url.now) × (kept.1 ≡ url.now.path)) }
{
    let location = Text::of(alloc, url.as_str().as_bytes())?;
    let path = Path::of(alloc, url.path().as_bytes())?;
    Ok((location, path))
}
