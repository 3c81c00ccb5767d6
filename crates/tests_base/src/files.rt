// Each call once with ample memory, over an area whose bytes are written by the format.
ghost use Rattle.std.specs.Prelude.{IfSome};
ghost use Rattle.fs_files.specs.Store.{IsWriting};

use crate::made::{name, owner, path};
use dl_base::{
    Area, BeginFault, File, FileCmd, FileRefusal, FileWhat, List, Owner, Path, Same, Text,
};
use dl_bench::MemoryBench;
use fs_files::Files;
use std::alloc::Global;

// The bytes stand in functions without a clause, which keeps them out of the goals.

/// Two records: ann creates `/a` with `one`, and a transaction takes the file over for `dlfm`, saving its owner.
fn taken_over() -> &'static [u8] {
    b"\x01\0\0\0\0\0\0\0\x24\x01\0\0\0\0\0\0\0\0\0\0\0\x01\x01\0\0\0\x02/a\0\0\0\x03ann\x01\0\0\0\0\x03one\
      \x01\0\0\0\0\0\0\0\x26\x01\0\0\0\x01\0\0\0\x02\0\0\0\x01\x02\0\0\0\x02/a\0\0\0\x04dlfm\0\x01\0\0\0\x03ann\x01\0"
}

/// A change of the owner of a file that is not there, behind a record that is taken.
fn without_its_file() -> &'static [u8] {
    b"\x01\0\0\0\0\0\0\0\x24\x01\0\0\0\0\0\0\0\0\0\0\0\x01\x01\0\0\0\x02/b\0\0\0\x03ann\x01\0\0\0\0\x03one\
      \x01\0\0\0\0\0\0\0\x26\x01\0\0\0\x01\0\0\0\x02\0\0\0\x01\x02\0\0\0\x02/a\0\0\0\x04dlfm\0\x01\0\0\0\x03ann\x01\0"
}

fn file(
    alloc: Global,
    by: &[u8],
    writable: bool,
    bytes: &[u8],
    before: Option<Owner>,
) -> Option<File> {
    let owner = owner(alloc, by, writable)?;
    let bytes = Text::of(alloc, bytes).ok()?;
    Some(File {
        owner,
        bytes,
        before,
    })
}

fn written(alloc: Global, at: &[u8], bytes: &[u8]) -> Option<FileWhat>
    ensures { IfSome result IsWriting }
{
    let path = path(alloc, at)?;
    let text = Text::of(alloc, bytes).ok()?;
    Some(FileWhat::Create(path, text))
}

fn create(alloc: Global, by: &[u8], at: &[u8], bytes: &[u8]) -> Option<FileCmd>
    ensures { IfSome result (λ cmd. IsWriting cmd.what) }
{
    let what = written(alloc, at, bytes)?;
    let user = name(alloc, by)?;
    Some(FileCmd { user, what })
}

fn delete(alloc: Global, by: &[u8], at: &[u8]) -> Option<FileCmd> {
    let path = path(alloc, at)?;
    let user = name(alloc, by)?;
    Some(FileCmd {
        user,
        what: FileWhat::Delete(path),
    })
}

fn area(alloc: Global, bytes: &[u8]) -> Option<MemoryBench> {
    let mut bench = MemoryBench::new(alloc, List::empty(alloc), None).ok()?;
    bench.put(Area::Files, bytes).ok()?;
    Some(bench)
}

fn opened(alloc: Global, bytes: &[u8]) -> Option<Result<Files, BeginFault>> {
    let mut bench = area(alloc, bytes)?;
    Some(Files::begin(alloc, &mut bench, 1_000))
}

fn looks_like(files: &Files, path: &Path, file: &File) -> bool {
    match files.look(path) {
        Some(found) => found.same(file),
        None => false,
    }
}

/// Whether a command is refused because of another owner, of this name.
fn is_of(files: &Files, cmd: &FileCmd, owner: &[u8]) -> bool {
    match files.test(cmd, None) {
        Ok(Some(FileRefusal::NotOwner(_, name))) => name.bytes() == owner,
        _ => false,
    }
}

/// Whether `/a` is the file that stands behind the second record.
fn is_linked(alloc: Global, files: &Files) -> Option<bool> {
    let linked = file(alloc, b"dlfm", false, b"one", owner(alloc, b"ann", true))?;
    Some(looks_like(files, &path(alloc, b"/a")?, &linked))
}

fn is_absent(alloc: Global, files: &Files, at: &[u8]) -> Option<bool> {
    Some(files.look(&path(alloc, at)?).is_none())
}

fn refuses_ann(alloc: Global, files: &Files) -> Option<bool> {
    Some(is_of(files, &delete(alloc, b"ann", b"/a")?, b"dlfm"))
}

fn all_hold(alloc: Global, files: &Files) -> bool {
    is_linked(alloc, files) == Some(true)
        && is_absent(alloc, files, b"/b") == Some(true)
        && refuses_ann(alloc, files) == Some(true)
}

fn is_created(alloc: Global, files: &Files) -> Option<bool> {
    let made = file(alloc, b"bob", true, b"", None)?;
    Some(looks_like(files, &path(alloc, b"/b")?, &made))
}

fn made_beside(alloc: Global, bench: &mut MemoryBench, cmd: FileCmd) -> bool
    requires { IsWriting cmd.what }
{
    match Files::begin(alloc, bench, 1_000) {
        Ok(mut files) => {
            let is_free = matches!(files.test(&cmd, None), Ok(None));
            is_free && files.apply(bench, cmd).is_ok() && is_created(alloc, &files) == Some(true)
        }
        Err(_) => false,
    }
}

fn length_after(alloc: Global) -> Option<usize> {
    let cmd = create(alloc, b"bob", b"/b", b"")?;
    let mut bench = area(alloc, taken_over())?;
    if made_beside(alloc, &mut bench, cmd) {
        Some(bench.area(Area::Files).len())
    } else {
        None
    }
}

#[test]
fn a_file_that_was_taken_over(rt: HostRuntime) {
    let alloc = rt.alloc();
    let holds = match opened(alloc, taken_over()) {
        Some(Ok(files)) => all_hold(alloc, &files),
        _ => false,
    };
    assert!(rt; holds);
}

#[test]
fn a_change_without_its_file(rt: HostRuntime) {
    let place = match opened(rt.alloc(), without_its_file()) {
        Some(Err(BeginFault::NotAJournal(place))) => place,
        _ => 0,
    };
    assert_eq!(rt; place, 45);
}

#[test]
fn a_create_beside_it(rt: HostRuntime) {
    assert_eq!(rt;
        length_after(rt.alloc()),
        Some(taken_over().len().wrapping_add(42))
    );
}
