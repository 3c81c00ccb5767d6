// Benches in memory, what an owner of an area refuses, and names and paths.
use dl_base::{Area, BeginFault, List, Name, Path, is_name, is_path};
use dl_bench::MemoryBench;
use std::alloc::Global;

/// A bench of which one area has these bytes, and the others none.
pub fn with_area(alloc: Global, area: Area, bytes: &[u8]) -> Option<MemoryBench> {
    let mut bench = MemoryBench::new(alloc, List::empty(alloc), None).ok()?;
    bench.put(area, bytes).ok()?;
    Some(bench)
}

/// The place of the first record that is refused.
pub fn refused_place<T: Drop>(begun: Result<T, BeginFault>) -> Option<u64> {
    match begun {
        Ok(owner) => {
            drop(owner);
            None
        }
        Err(BeginFault::NotAJournal(place)) => Some(place),
        Err(BeginFault::Device) | Err(BeginFault::Memory) => None,
    }
}

pub fn name(alloc: Global, text: &[u8]) -> Option<Name> {
    if is_name(text) {
        Name::of(alloc, text).ok()
    } else {
        None
    }
}

pub fn path(alloc: Global, text: &[u8]) -> Option<Path> {
    if is_path(text) {
        Path::of(alloc, text).ok()
    } else {
        None
    }
}
