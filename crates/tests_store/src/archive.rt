// The calls of the archive, once each, with ample memory, over areas whose bytes are written by the format.
ghost use Rattle.std.specs.Prelude.{◌≡◌, IfSome, is_none};
ghost use Rattle.std.specs.FinMap as maps;
ghost use Rattle.dl_bench.specs.Traces.{seen};
ghost use Rattle.dl_journal.specs.Open.{IsOpen};
ghost use Rattle.fm_archive.specs.Stock.{extent};
ghost use Rattle.meaning_settling.specs.Settling.{link_key};

use crate::bench::{name as name_of, path, refused_place, with_area};
use dl_base::{
    Area, BeginFault, LinkNo, LinkRow, List, OnUnlink, Options, Owner, ReadBy, Text, WriteBy,
};
use dl_bench::MemoryBench;
use dl_codec::FileCopy;
use fm_archive::{Archive, CopyMade, make};
use std::alloc::Global;

// The bytes stand in functions without a clause, which keeps them out of the goals.

/// The copies of links 9.1 and 2.3, both of the bytes `abc`, whose digest is the first of the examples of FIPS 180-4.
fn two_copies() -> &'static [u8] {
    b"\x01\0\0\0\0\0\0\0\x3c\x01\0\0\0\0\0\0\0\x09\0\0\0\x01\0\0\0\x03ann\x01\
      \xba\x78\x16\xbf\x8f\x01\xcf\xea\x41\x41\x40\xde\x5d\xae\x22\x23\xb0\x03\x61\xa3\x96\x17\x7a\x9c\xb4\x10\xff\x61\xf2\x00\x15\xad\
      \0\0\0\x03abc\
      \x01\0\0\0\0\0\0\0\x3c\x01\0\0\0\0\0\0\0\x02\0\0\0\x03\0\0\0\x03bob\0\
      \xba\x78\x16\xbf\x8f\x01\xcf\xea\x41\x41\x40\xde\x5d\xae\x22\x23\xb0\x03\x61\xa3\x96\x17\x7a\x9c\xb4\x10\xff\x61\xf2\x00\x15\xad\
      \0\0\0\x03abc\0"
}

/// The first of them twice.
fn twice() -> &'static [u8] {
    b"\x01\0\0\0\0\0\0\0\x3c\x01\0\0\0\0\0\0\0\x09\0\0\0\x01\0\0\0\x03ann\x01\
      \xba\x78\x16\xbf\x8f\x01\xcf\xea\x41\x41\x40\xde\x5d\xae\x22\x23\xb0\x03\x61\xa3\x96\x17\x7a\x9c\xb4\x10\xff\x61\xf2\x00\x15\xad\
      \0\0\0\x03abc\
      \x01\0\0\0\0\0\0\0\x3c\x01\0\0\0\0\0\0\0\x09\0\0\0\x01\0\0\0\x03ann\x01\
      \xba\x78\x16\xbf\x8f\x01\xcf\xea\x41\x41\x40\xde\x5d\xae\x22\x23\xb0\x03\x61\xa3\x96\x17\x7a\x9c\xb4\x10\xff\x61\xf2\x00\x15\xad\
      \0\0\0\x03abc\0"
}

/// The first of them with a digest that is another.
fn altered() -> &'static [u8] {
    b"\x01\0\0\0\0\0\0\0\x3c\x01\0\0\0\0\0\0\0\x09\0\0\0\x01\0\0\0\x03ann\x01\
      \xbb\x78\x16\xbf\x8f\x01\xcf\xea\x41\x41\x40\xde\x5d\xae\x22\x23\xb0\x03\x61\xa3\x96\x17\x7a\x9c\xb4\x10\xff\x61\xf2\x00\x15\xad\
      \0\0\0\x03abc\0"
}

fn link(tx: u64, k: u32) -> LinkNo
    ensures { result ≡ record { tx = tx; k = k } }
{
    LinkNo { tx, k }
}

fn begun(alloc: Global, bytes: &[u8]) -> Option<Result<Archive, BeginFault>> {
    let mut bench = with_area(alloc, Area::Archive, bytes)?;
    let begun = Archive::begin(alloc, &mut bench, 1_000);
    drop(bench);
    Some(begun)
}

fn opened(alloc: Global, bytes: &[u8]) -> Option<Archive> {
    begun(alloc, bytes)?.ok()
}

fn refused_at(alloc: Global, bytes: &[u8]) -> Option<u64> {
    refused_place(begun(alloc, bytes)?)
}

// The first byte of the owner's name, whether it is writable, the first byte of the digest, and how many bytes there are.
fn shown(copy: &FileCopy) -> Option<(u8, bool, u8, usize)> {
    Some((
        *copy.owner.name.bytes().first()?,
        copy.owner.writable,
        copy.digest[0],
        copy.bytes.len(),
    ))
}

fn copy_of(archive: &Archive, link: LinkNo) -> Option<(u8, bool, u8, usize)> {
    shown(archive.copy(link)?)
}

fn copy_in(alloc: Global, bytes: &[u8], link: LinkNo) -> Option<(u8, bool, u8, usize)> {
    let archive = opened(alloc, bytes)?;
    let copy = copy_of(&archive, link);
    drop(archive);
    copy
}

// The number of a link, as two numbers.
fn numbers(link: &LinkNo) -> (u64, u32) {
    (link.tx, link.k)
}

fn stored_of(archive: &Archive, place: usize) -> Option<(u64, u32)> {
    Some(numbers(archive.stored().ok()?.at(place)?))
}

fn stored_at(alloc: Global, bytes: &[u8], place: usize) -> Option<(u64, u32)> {
    let archive = opened(alloc, bytes)?;
    let stored = stored_of(&archive, place);
    drop(archive);
    stored
}

// Links: one with a copy, one that has none and needs none, one that waits for one, and one with a copy.

fn row(alloc: Global, link: LinkNo, recovery: bool) -> Option<LinkRow> {
    Some(LinkRow {
        link,
        path: path(alloc, b"/a")?,
        options: Options {
            read: ReadBy::Fs,
            write: WriteBy::Blocked,
            recovery,
            unlink: OnUnlink::Restore,
        },
    })
}

fn put_four(alloc: Global, links: &mut List<LinkRow>) -> Option<()> {
    for (link, recovery) in [
        (link(9, 1), true),
        (link(9, 2), false),
        (link(1, 1), true),
        (link(2, 3), true),
    ] {
        links.push(row(alloc, link, recovery)?).ok()?;
    }
    Some(())
}

fn pending_of(archive: &Archive, links: &List<LinkRow>, place: usize) -> Option<(u64, u32)> {
    Some(numbers(archive.pending(links).ok()?.at(place)?))
}

fn pending_among(alloc: Global, links: &List<LinkRow>, place: usize) -> Option<(u64, u32)> {
    let archive = opened(alloc, two_copies())?;
    let pending = pending_of(&archive, links, place);
    drop(archive);
    pending
}

fn pending_at(alloc: Global, place: usize) -> Option<(u64, u32)> {
    let mut links = List::empty(alloc);
    let pending = match put_four(alloc, &mut links) {
        Some(()) => pending_among(alloc, &links, place),
        None => None,
    };
    drop(links);
    pending
}

// A copy of the bytes `abc`.
fn made(alloc: Global, link: LinkNo, name: &[u8], writable: bool) -> Option<CopyMade>
    ensures { IfSome result (λ made. made.link ≡ link) }
{
    let bytes = Text::of(alloc, b"abc").ok()?;
    let name = name_of(alloc, name)?;
    make(alloc, link, Owner { name, writable }, bytes).ok()
}

fn has_none(archive: &Archive, link: LinkNo) -> bool
    ensures { result ≡ is_none (maps.get archive.now.copies (link_key link)) }
{
    archive.copy(link).is_none()
}

// Stores a copy of a link that has none.
fn store(archive: &mut Archive, bench: &mut MemoryBench, link: LinkNo, made: CopyMade) -> Option<()>
    requires ready { IsOpen (extent archive.old) (seen bench.old) }
    requires link { made.link ≡ link }
{
    if archive.make_room(1).is_ok() && has_none(archive, link) {
        archive.store(bench, made).ok()
    } else {
        drop(made);
        None
    }
}

fn put_made(alloc: Global, bench: &mut MemoryBench, link: LinkNo, made: CopyMade) -> Option<()>
    requires link { made.link ≡ link }
{
    match Archive::begin(alloc, bench, 1_000) {
        Ok(mut archive) => {
            let stored = store(&mut archive, bench, link, made);
            drop(archive);
            stored
        }
        Err(_) => {
            drop(made);
            None
        }
    }
}

fn put(
    alloc: Global,
    bench: &mut MemoryBench,
    link: LinkNo,
    name: &[u8],
    writable: bool,
) -> Option<()> {
    put_made(alloc, bench, link, made(alloc, link, name, writable)?)
}

fn put_both(alloc: Global, bench: &mut MemoryBench) -> Option<()> {
    put(alloc, bench, link(9, 1), b"ann", true)?;
    put(alloc, bench, link(2, 3), b"bob", false)
}

// Whether two copies that are stored are their records.
fn are_stored(alloc: Global) -> Option<bool> {
    let mut bench = with_area(alloc, Area::Archive, b"")?;
    let stored = put_both(alloc, &mut bench).is_some() && bench.area(Area::Archive) == two_copies();
    drop(bench);
    Some(stored)
}

#[test]
fn copies_of_an_area(rt: HostRuntime) {
    let alloc = rt.alloc();
    for (tx, k, want) in [
        (9, 1, Some((b'a', true, 0xba, 3))),
        (2, 3, Some((b'b', false, 0xba, 3))),
        (9, 2, None),
    ] {
        assert_eq!(rt; copy_in(alloc, two_copies(), link(tx, k)), want);
    }
}

#[test]
fn links_with_a_copy(rt: HostRuntime) {
    let alloc = rt.alloc();
    for (place, want) in [(0, Some((2, 3))), (1, Some((9, 1))), (2, None)] {
        assert_eq!(rt; stored_at(alloc, two_copies(), place), want);
    }
}

#[test]
fn links_that_wait_for_a_copy(rt: HostRuntime) {
    let alloc = rt.alloc();
    for (place, want) in [(0, Some((1, 1))), (1, None)] {
        assert_eq!(rt; pending_at(alloc, place), want);
    }
}

#[test]
fn copies_are_stored(rt: HostRuntime) {
    assert_eq!(rt; are_stored(rt.alloc()), Some(true));
}

#[test]
fn areas_that_are_refused(rt: HostRuntime) {
    for (bytes, place) in [(twice(), 69), (altered(), 0)] {
        assert_eq!(rt; refused_at(rt.alloc(), bytes), Some(place));
    }
}
