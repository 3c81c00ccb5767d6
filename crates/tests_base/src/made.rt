// Values that tests are made of. `None` is want of memory, or bytes of the wrong form.
use dl_base::{Area, List, Name, Owner, Path, Text, is_name, is_path};
use dl_bench::MemoryBench;
use std::alloc::Global;

pub fn path(alloc: Global, bytes: &[u8]) -> Option<Path> {
    if is_path(bytes) {
        Path::of(alloc, bytes).ok()
    } else {
        None
    }
}

pub fn name(alloc: Global, bytes: &[u8]) -> Option<Name> {
    if is_name(bytes) {
        Name::of(alloc, bytes).ok()
    } else {
        None
    }
}

pub fn text(alloc: Global, bytes: &[u8]) -> Option<Text> {
    Text::of(alloc, bytes).ok()
}

pub fn owner(alloc: Global, bytes: &[u8], writable: bool) -> Option<Owner> {
    let name = name(alloc, bytes)?;
    Some(Owner { name, writable })
}

/// A bench of which one area has these bytes, and the others none, and each call fails after as many as the fuse says.
pub fn with_area(
    alloc: Global,
    area: Area,
    bytes: &[u8],
    fuse: Option<u64>,
) -> Option<MemoryBench> {
    let mut bench = MemoryBench::new(alloc, List::empty(alloc), fuse).ok()?;
    bench.put(area, bytes).ok()?;
    Some(bench)
}
