// Sets: items in order, each once, in shared pages.
ghost use Rattle.std.specs.Prelude.{◌≡◌, remove, IfOk, OnOk, OnErr};
ghost use Rattle.std.specs.List.Sorted.{IsStrictlySortedBy};
ghost use Rattle.std.specs.List.{slice_get};
ghost use Rattle.dl_pages.specs.Sets.{WithMember, WithoutMember, is_at};

use crate::pages::take_both;
use crate::{Ordered, Pages, Predicate, Ranked};
use dl_base::{Copied, Memory};
use std::alloc::Global;
use std::cmp::Ordering;
use std::mem;

// The test of what is below an item.
#[derive(Drop)]
struct Under<'a, T> {
    item: &'a T,
}

impl<T: Ordered> Predicate<T> for Under<'_, T> {
    ghost use Rattle.std.specs.Ordering.{is_lt};

    ghost test = { λ u x. is_lt (T.order x u.item.now) };

    fn passes(&self, item: &T) -> bool {
        item.order(self.item) == Ordering::Less
    }

    ghost pivot = { λ u. T.rank u.item.now };

    fn pivot(&self) -> u64 {
        self.item.rank()
    }

    ghost use Rattle.dl_pages.specs.Orders.{lower, higher};

    ghost low = { λ u x. lower T.order T.rank T.follows x u.item.now };

    ghost high = { λ u x. higher T.order T.rank T.total T.follows x u.item.now };
}

// Whether an item equal to this one stands at a place.
fn stands<T: Ordered>(items: &Pages<T>, place: usize, item: &T) -> bool
    ensures { result ≡ is_at T.order item.now (slice_get items.now place) }
{
    match items.at(place) {
        Some(there) => item.order(there) == Ordering::Equal,
        None => false,
    }
}

/// The set with one more member; the same set where one equal to it is there. The given set stays. The cost is that of a search and
/// of a change of `Pages`. The error is want of memory.
pub fn with_member<T: Copied + Ordered>(
    alloc: Global,
    items: &Pages<T>,
    item: T,
) -> Result<Pages<T>, Memory>
    ensures { IsStrictlySortedBy T.order items.now → IfOk result (λ made. WithMember T.order items.now made item) }
{
    let place = items.partition_point(&Under { item: &item });
    if stands(items, place, &item) {
        return items.share();
    }
    items.inserted(alloc, place, item)
}

/// The set with one member less; the same set where none is equal to it. The given set stays. The cost is that of a search and of a
/// change of `Pages`. The error is want of memory.
pub fn without_member<T: Copied + Ordered>(
    alloc: Global,
    items: &Pages<T>,
    item: &T,
) -> Result<Pages<T>, Memory>
    ensures { IsStrictlySortedBy T.order items.now → IfOk result (λ made. WithoutMember T.order items.now made item.now) }
{
    let place = items.partition_point(&Under { item });
    if stands(items, place, item) {
        return items.removed(alloc, place);
    }
    items.share()
}

// Takes an item out of each of two lists: both, or with the error neither.
fn remove_both<A: Copied + Ranked, B: Copied + Ranked>(
    alloc: Global,
    items: &mut Pages<A>,
    index: usize,
    others: &mut Pages<B>,
    place: usize,
) -> Result<(), Memory>
    ensures ok { OnOk result ((items.new ≡ remove items.old index) × (others.new ≡ remove others.old place)) }
    ensures err { OnErr result ((items.new ≡ items.old) × (others.new ≡ others.old)) }
{
    if take_both(items, index, others, place) {
        return Ok(());
    }
    let fewer = items.removed(alloc, index)?;
    match others.removed(alloc, place) {
        Ok(fewer_others) => {
            drop(mem::replace(items, fewer));
            drop(mem::replace(others, fewer_others));
            Ok(())
        }
        Err(Memory) => {
            drop(fewer);
            Err(Memory)
        }
    }
}

/// Takes the item at a place from 0 out of a list, and a member out of a set: both, or with the error neither. Nothing changes of a
/// list with no item there, nor of a set with no member equal to this one. Pages are changed where they stand as with
/// `Pages::remove`, and where both changes can be made so, they take no memory. The cost is that of a search and of two removals. The
/// error is want of memory.
pub fn remove_with_member<A: Copied + Ranked, T: Copied + Ordered>(
    alloc: Global,
    items: &mut Pages<A>,
    index: usize,
    set: &mut Pages<T>,
    member: &T,
) -> Result<(), Memory>
    ensures items { OnOk result (items.new ≡ remove items.old index) }
    ensures set { IsStrictlySortedBy T.order set.old → OnOk result (WithoutMember T.order set.old set.new member.now) }
    ensures err { OnErr result ((items.new ≡ items.old) × (set.new ≡ set.old)) }
{
    let place = set.partition_point(&Under { item: member });
    if stands(set, place, member) {
        return remove_both(alloc, items, index, set, place);
    }
    items.remove(alloc, index)
}
