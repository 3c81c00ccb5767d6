// Which texts are locations.
use crate::made::name;
use dl_base::{Path, Text};
use dl_location::{LocationFault, bad_link_number, read_location};
use std::alloc::Global;

// Each text that is a location on the server `fs1`, what is kept of it, and its path.
fn kept() -> &'static [(&'static [u8], &'static [u8], &'static [u8])] {
    &[
        (b"http://FS1/a/../b", b"http://fs1/b", b"/b"),
        (b"http://fs1:80/a", b"http://fs1/a", b"/a"),
        (b"http://@fs1/a", b"http://fs1/a", b"/a"),
        (b"http:fs1/a", b"http://fs1/a", b"/a"),
        (b"http:\\\\fs1\\a", b"http://fs1/a", b"/a"),
        (b" http://fs1/\ta\n ", b"http://fs1/a", b"/a"),
        (b"h\tttp://fs1/a\tb", b"http://fs1/ab", b"/ab"),
        (b"HTTP://fs1/A", b"http://fs1/A", b"/A"),
        (b"file://fs1/a", b"file://fs1/a", b"/a"),
        (b"FILE:\\\\FS1\\a", b"file://fs1/a", b"/a"),
        (b"http://fs%31/a", b"http://fs1/a", b"/a"),
        (b"http://\xef\xbd\x86s1/a", b"http://fs1/a", b"/a"),
        (b"http://fs1/\xc3\xa9", b"http://fs1/%C3%A9", b"/%C3%A9"),
        (
            b"http://fs1/%41%7e%zz b^c",
            b"http://fs1/%41%7e%zz%20b%5Ec",
            b"/%41%7e%zz%20b%5Ec",
        ),
        (b"http://fs1/../a//b/%2e%2E/c", b"http://fs1/a//c", b"/a//c"),
        (b"http://fs1/a;b,c", b"http://fs1/a;b,c", b"/a;b,c"),
    ]
}

// Each text that is none, and the number of its refusal.
fn refused() -> &'static [(&'static [u8], u8)] {
    &[
        (b"a", 1),
        (b"", 1),
        (b"//fs1/a", 1),
        (b"http://fs1/\xff", 1),
        (b"http://", 1),
        (b"http://fs1:99999/a", 1),
        (b"http://fs 1/a", 1),
        (b"file://fs1:80/a", 1),
        (b"ftp://fs1/a", 2),
        (b"https://fs1/a", 2),
        (b"ftp://other/?x", 2),
        (b"http://other/a", 3),
        (b"http://fs1.other/a", 3),
        (b"http:///fs/a", 3),
        (b"http://other/?x", 3),
        (b"file:///a", 3),
        (b"file://localhost/a", 3),
        (b"file:a", 3),
        (b"http://127.0.0.1/a", 3),
        (b"http://0x7f.1/a", 3),
        (b"http://[::1]/a", 3),
        (b"http://fs\xc3\xa4/a", 3),
        (b"http://fs1/a?x", 4),
        (b"http://fs1/a?", 4),
        (b"http://fs1/a#", 4),
        (b"http://u@fs1/a", 4),
        (b"http://:p@fs1/a", 4),
        (b"http://fs1:81/a", 4),
        (b"http://fs1/?x", 4),
        (b"http://fs1/", 5),
        (b"http://fs1", 5),
        (b"http://fs1//a/", 5),
    ]
}

fn is_kept(found: &Result<(Text, Path), LocationFault>, location: &[u8], path: &[u8]) -> bool {
    match found {
        Ok((text, at)) => text.bytes() == location && at.bytes() == path,
        Err(_) => false,
    }
}

fn number_of(found: &Result<(Text, Path), LocationFault>) -> Option<u8> {
    match found {
        Err(LocationFault::Bad(bad)) => Some(bad_link_number(*bad)),
        _ => None,
    }
}

fn keeps(alloc: Global, text: &[u8], location: &[u8], path: &[u8]) -> Option<bool> {
    let server = name(alloc, b"fs1")?;
    let found = read_location(alloc, &server, text);
    Some(is_kept(&found, location, path))
}

fn refuses(alloc: Global, text: &[u8]) -> Option<u8> {
    let server = name(alloc, b"fs1")?;
    let found = read_location(alloc, &server, text);
    number_of(&found)
}

#[test]
fn locations(rt: HostRuntime) {
    for (text, location, path) in kept() {
        assert!(rt; keeps(rt.alloc(), text, location, path) == Some(true));
    }
}

#[test]
fn texts_that_are_no_location(rt: HostRuntime) {
    for (text, number) in refused() {
        assert!(rt; refuses(rt.alloc(), text) == Some(*number));
    }
}

#[test]
fn longest_path(rt: HostRuntime) {
    let mut text = [b'a'; 1035];
    text[..11].copy_from_slice(b"http://fs1/");
    assert!(rt; keeps(rt.alloc(), &text[..1034], &text[..1034], &text[10..1034]) == Some(true));
    assert!(rt; refuses(rt.alloc(), &text) == Some(5));
}
