// Lists, and the text that a list becomes.
use dl_base::{Copied, List, Text};
use std::alloc::Global;

// 7, 8, 9.
fn listed(alloc: Global) -> Option<List<u8>> {
    let mut list = List::empty(alloc);
    list.push(7u8).ok()?;
    list.extend(&[8, 9]).ok()?;
    Some(list)
}

// 7, 5, 9: the second is written, and all are copied.
fn written(alloc: Global) -> Option<List<u8>> {
    let mut list = listed(alloc)?;
    let item = list.at_mut(1)?;
    *item = 5;
    list.copy().ok()
}

fn is_written(alloc: Global) -> Option<bool> {
    Some(written(alloc)?.as_slice() == [7, 5, 9].as_slice())
}

// The last item, the second and the third behind it, and how many are left.
fn popped(alloc: Global) -> Option<(Option<u8>, Option<u8>, Option<u8>, usize)> {
    let mut list = written(alloc)?;
    let last = list.pop();
    Some((last, list.at(1).copied(), list.at(2).copied(), list.len()))
}

fn as_text(alloc: Global) -> Option<bool> {
    let list = written(alloc)?;
    Some(Text::from_vec(list.into_vec()).bytes() == [7, 5, 9].as_slice())
}

fn one_item(alloc: Global) -> Option<usize> {
    let mut numbers = Vec::new(alloc);
    numbers.push(7u8).ok()?;
    Some(List::from_vec(numbers).len())
}

#[test]
fn lists(rt: HostRuntime) {
    let alloc = rt.alloc();
    assert!(rt; is_written(alloc) == Some(true));
    assert!(rt; popped(alloc) == Some((Some(9), Some(5), None, 2)));
    assert!(rt; as_text(alloc) == Some(true));
    assert!(rt; one_item(alloc) == Some(1));
}
