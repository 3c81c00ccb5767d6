// Rows of items, as they stand in leaves: what is found in them, and copies of them with an item more, with another or without one.
// No row is changed once it stands in a leaf, unless no other list shares the leaf.
ghost use Rattle.std.specs.Prelude.{◌≡◌, [], ◌++◌, ◌<◌, ◌≤◌, length, slice_get, slice_set, remove, IfOk, OnOk, IfSome, IfNone};
ghost use Rattle.std.specs.List.{insert};
ghost use Rattle.std.specs.Option.{option_copied, option_to_list};
ghost use Rattle.dl_pages.specs.Listing.{HasRank};
ghost use Rattle.dl_pages.specs.Points.{IsPartitioned, IsPartitionPoint};

use crate::step::Step;
use crate::{Predicate, Ranked};
use dl_base::{Copied, List, Memory};
use std::alloc::Global;
use std::mem;
use std::sync::Arc;

// How many items a leaf holds.
pub const MOST_ITEMS: usize = 16;

// How many items the first of two leaves gets.
const HALF: usize = MOST_ITEMS / 2;

// The item at a place in a row; None past the last.
pub fn item_at<T>(row: &[T], index: usize) -> Option<&T>
    ensures { option_copied result ≡ slice_get row.now index }
{
    row.get(index)
}

// The rank of the first item of a row, or 0.
pub fn rank_of<T: Ranked>(row: &[T]) -> u64
    ensures { HasRank T.rank result row.now }
{
    match row.first() {
        Some(item) => item.rank(),
        None => 0,
    }
}

// Whether an item passes a test. Where its rank tells, it is not asked.
fn is_passing<T: Ranked, F: Predicate<T>>(item: &T, predicate: &F, pivot: u64) -> bool
    requires { pivot ≡ F.pivot predicate.now }
    ensures { result ≡ F.test predicate.now item.now }
{
    let rank = item.rank();
    if rank != pivot {
        return rank < pivot;
    }
    predicate.passes(item)
}

// How many items of a row pass a test, and the first that fails it, as with the list.
pub fn first_failing_of<'a, T: Ranked, F: Predicate<T>>(
    row: &'a [T],
    predicate: &F,
    pivot: u64,
) -> (usize, Option<&'a T>)
    requires { pivot ≡ F.pivot predicate.now }
    ensures within { result.0 ≤ length row.now }
    ensures point { IsPartitioned (F.test predicate.now) row.now → IsPartitionPoint (F.test predicate.now) row.now result.0 }
    ensures item { option_copied result.1 ≡ slice_get row.now result.0 }
{
    let place = row.partition_point(|item| is_passing(item, predicate, pivot));
    (place, item_at(row, place))
}

// Reads what copies of some items will write.
fn prefetch_items<T: Ranked>(items: &[T]) {
    for item in items {
        item.prefetch();
    }
}

// Puts copies of items at the end, which other leaves keep too.
fn push_copies<T: Copied + Ranked>(row: &mut Vec<T>, items: &[T]) -> Result<(), Memory>
    ensures { OnOk result (row.new.items ≡ row.old.items ++ items.now) }
{
    prefetch_items(items);
    let mut rest = items;
    while let Some((item, behind)) = rest.split_first() {
        row.push(item.copy()?)?;
        rest = behind;
    }
    Ok(())
}

// An empty row with room for all that a leaf holds, so that the memory of a leaf that goes serves the next.
pub fn roomy<T>(alloc: Global) -> Result<Vec<T>, Memory>
    ensures { IfOk result (λ row. row.items ≡ []) }
{
    Ok(Vec::with_capacity(alloc, MOST_ITEMS)?)
}

// A row of copies of items, and of one between them.
fn row_of<T: Copied + Ranked>(
    alloc: Global,
    before: &[T],
    item: Option<T>,
    behind: &[T],
) -> Result<Vec<T>, Memory>
    ensures { IfOk result (λ row. row.items ≡ before.now ++ (option_to_list item ++ behind.now)) }
{
    let mut row = roomy(alloc)?;
    push_copies(&mut row, before)?;
    if let Some(item) = item {
        row.push(item)?;
    }
    push_copies(&mut row, behind)?;
    Ok(row)
}

// A row of copies of items.
fn copy_of<T: Copied + Ranked>(alloc: Global, row: &[T]) -> Result<Vec<T>, Memory>
    ensures { IfOk result (λ made. made.items ≡ row.now) }
{
    row_of(alloc, row, None, &[])
}

// A row with one more item at a place.
pub fn with_item<T: Copied + Ranked>(
    alloc: Global,
    row: &[T],
    index: usize,
    item: T,
) -> Result<Vec<T>, Memory>
    requires { index ≤ length row.now }
    ensures { IfOk result (λ made. made.items ≡ insert row.now index item) }
{
    let (before, behind) = row.split_at(index);
    row_of(alloc, before, Some(item), behind)
}

// A row with another item in place of one.
pub fn with_other<T: Copied + Ranked>(
    alloc: Global,
    row: &[T],
    index: usize,
    item: T,
) -> Result<Vec<T>, Memory>
    requires { index < length row.now }
    ensures { IfOk result (λ made. made.items ≡ slice_set row.now index item) }
{
    let (before, rest) = row.split_at(index);
    let (_, behind) = rest.split_at(1);
    row_of(alloc, before, Some(item), behind)
}

// A row without an item.
pub fn without_item<T: Copied + Ranked>(
    alloc: Global,
    row: &[T],
    index: usize,
) -> Result<Vec<T>, Memory>
    requires { index < length row.now }
    ensures { IfOk result (λ made. made.items ≡ remove row.now index) }
{
    let (before, rest) = row.split_at(index);
    let (_, behind) = rest.split_at(1);
    row_of(alloc, before, None, behind)
}

// Takes an item out of a row.
fn take_item<T: Drop>(row: &mut List<T>, index: usize)
    requires { index < length row.old }
    ensures { row.new ≡ remove row.old index }
{
    let mut items = mem::replace(row, List::empty(row.allocator())).into_vec();
    drop(items.remove(index));
    drop(mem::replace(row, List::from_vec(items)));
}

// Takes an item out of a leaf that no other list shares, and makes a further change; the rank of the first item that is left. None
// where another list shares the leaf, or where the change is not made, and then nothing has changed.
pub fn take_of_leaf<T: Drop + Ranked, S: Step>(
    leaf: &mut Arc<List<T>>,
    index: usize,
    step: &mut S,
) -> Option<u64>
    requires { index < length leaf.old.value }
    ensures taken { IfSome result (λ rank. (leaf.new.value ≡ remove leaf.old.value index) × HasRank T.rank rank leaf.new.value) }
    ensures made { IfSome result (λ rank. S.made step.old step.new) }
    ensures kept { IfNone result (leaf.new.value ≡ leaf.old.value) }
    ensures unmade { IfNone result (step.new ≡ step.old) }
{
    let row = Arc::get_mut(leaf)?;
    if !step.make() {
        return None;
    }
    take_item(row, index);
    Some(rank_of(row.as_slice()))
}

// Two rows of a full one with one more item: half of its items are in the one, and the others in the other.
pub fn halved<T: Copied + Ranked>(
    alloc: Global,
    row: &[T],
    index: usize,
    item: T,
) -> Result<(Vec<T>, Vec<T>), Memory>
    requires full { 8 ≤ length row.now }
    requires within { index ≤ length row.now }
    ensures { IfOk result (λ made. made.0.items ++ made.1.items ≡ insert row.now index item) }
{
    let (front, back) = row.split_at(HALF);
    if index <= HALF {
        return Ok((with_item(alloc, front, index, item)?, copy_of(alloc, back)?));
    }
    Ok((
        copy_of(alloc, front)?,
        with_item(alloc, back, index - HALF, item)?,
    ))
}
