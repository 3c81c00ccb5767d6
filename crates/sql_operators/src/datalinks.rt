// What DLVALUE makes, and what the accessors of a datalink show.
ghost use Rattle.std.specs.Prelude.{◌≡◌, Ok};
ghost use Rattle.meaning_sql.specs.Datalinks as meaning;
ghost use Rattle.meaning_sql.specs.Faults.{Computes};

use dl_base::limits::MOST_COMMENT_BYTES;
use dl_base::{BadLink, Dl, LinkNo, Name, Options, Part, Path, ReadBy, SqlFault, Text, Value};
use dl_location::{Accessor, LocationFault, accessor_text, read_location};
use dl_token::{expiry_after, token, with_token};
use meaning_sql::Context;
use std::alloc::Global;

/// DLVALUE of a location, a link type and a comment, on the server named. It is NULL where the location is no text. Else it is refused
/// (`BadLink`) for its location, its link type or its comment, the first of these that is not as it has to be, or for want of memory
/// (`Memory`).
#[tactic(auto, unfolding(meaning_sql::specs::Datalinks::datalink))]
pub fn datalink(
    alloc: Global,
    server: &Name,
    location: &Value,
    linktype: &Value,
    comment: &Value,
) -> Result<Value, SqlFault>
    ensures { Computes (λ v. v) result (meaning.datalink server.now location.now linktype.now comment.now) }
{
    let text = match location {
        Value::Text(text) => text,
        Value::Null | Value::Int(_) | Value::Link(_) => return Ok(Value::Null),
    };
    match read_location(alloc, server, text.bytes()) {
        Ok((location, path)) => linked(alloc, location, path, linktype, comment),
        Err(LocationFault::Bad(why)) => Err(SqlFault::BadLink(why)),
        Err(LocationFault::Memory) => Err(SqlFault::Memory),
    }
}

// The datalink at a location that was read.
fn linked(
    alloc: Global,
    location: Text,
    path: Path,
    linktype: &Value,
    comment: &Value,
) -> Result<Value, SqlFault>
    ensures { Computes (λ v. v) result (meaning.linked (Ok (location, path)) (meaning.is_url linktype.now) (meaning.comment_text comment.now)) }
{
    if !is_url(linktype) {
        return Err(SqlFault::BadLink(BadLink::LinkType));
    }
    let comment = comment_text(comment);
    if comment.len() > MOST_COMMENT_BYTES {
        return Err(SqlFault::BadLink(BadLink::Comment));
    }
    Ok(Value::Link(Dl {
        location,
        path,
        comment: Text::of(alloc, comment)?,
        link: None,
    }))
}

fn is_url(linktype: &Value) -> bool
    ensures { result ≡ meaning.is_url linktype.now }
{
    match linktype {
        Value::Null => true,
        Value::Text(text) => text.bytes().eq_ignore_ascii_case(b"URL"),
        Value::Int(_) => false,
        Value::Link(_) => false,
    }
}

fn comment_text(comment: &Value) -> &[u8]
    ensures { result.now ≡ meaning.comment_text comment.now }
{
    match comment {
        Value::Text(text) => text.bytes(),
        Value::Null => &[],
        Value::Int(_) => &[],
        Value::Link(_) => &[],
    }
}

/// An accessor of a value that is a cell of a column under these options, if it is one.
#[tactic(auto, unfolding(meaning_sql::specs::Datalinks::accessed))]
pub(crate) fn accessed(
    alloc: Global,
    context: &Context,
    under: Option<Options>,
    part: Part,
    x: &Value,
) -> Result<Value, SqlFault>
    ensures { Computes (λ v. v) result (Ok (meaning.accessed context.entry.now under part x.now)) }
{
    let Value::Link(link) = x else {
        return Ok(Value::Null);
    };
    Ok(Value::Text(part_text(alloc, context, under, part, link)?))
}

fn part_text(
    alloc: Global,
    context: &Context,
    under: Option<Options>,
    part: Part,
    link: &Dl,
) -> Result<Text, SqlFault>
    ensures { Computes (λ text. text) result (Ok (meaning.part_text context.entry.now under part link.now)) }
{
    match part {
        Part::Comment => Ok(accessor_text(alloc, Accessor::Comment, link)?),
        Part::LinkType => Ok(accessor_text(alloc, Accessor::LinkType, link)?),
        Part::Scheme => Ok(accessor_text(alloc, Accessor::Scheme, link)?),
        Part::Server => Ok(accessor_text(alloc, Accessor::Server, link)?),
        Part::PathOnly => Ok(accessor_text(alloc, Accessor::PathOnly, link)?),
        Part::Path => shown(alloc, context, under, link, link.path.bytes()),
        Part::Complete => shown(alloc, context, under, link, link.location.bytes()),
    }
}

// A path or a location, with a token in a column under READ DB.
#[tactic(auto, unfolding(meaning_sql::specs::Datalinks::shown))]
fn shown(
    alloc: Global,
    context: &Context,
    under: Option<Options>,
    link: &Dl,
    text: &[u8],
) -> Result<Text, SqlFault>
    ensures { Computes (λ made. made) result (Ok (meaning.shown context.entry.now under link.now text.now)) }
{
    if !is_guarded(under) {
        return Ok(Text::of(alloc, text)?);
    }
    with_link_token(alloc, context, &link.path, link.link, text)
}

fn with_link_token(
    alloc: Global,
    context: &Context,
    path: &Path,
    link: Option<LinkNo>,
    text: &[u8],
) -> Result<Text, SqlFault>
    ensures { Computes (λ made. made) result (Ok (meaning.with_link_token context.entry.now path.now link text.now)) }
{
    match link {
        None => Ok(Text::of(alloc, text)?),
        Some(link) => {
            let expiry = expiry_after(context.now, context.life);
            let token = token(&context.key, path, link, expiry);
            Ok(with_token(alloc, text, &token)?)
        }
    }
}

fn is_guarded(under: Option<Options>) -> bool
    ensures { result ≡ meaning.is_guarded under }
{
    match under {
        None => false,
        Some(options) => match options.read {
            ReadBy::Fs => false,
            ReadBy::Db => true,
        },
    }
}
