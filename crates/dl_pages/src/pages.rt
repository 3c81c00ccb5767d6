// A list in a tree of wide shared pages. No page that several lists share is ever changed: a change makes new pages along one path
// from the top and shares the others, so a copy costs one count, and want of memory leaves every list as it was. Pages that one list
// has for itself may be changed where they stand.
ghost use Rattle.std.specs.Prelude.{◌≡◌, ◌↔◌, IsTrue, true, false, [], ◌<◌, ◌≤◌, length, slice_get, slice_set, remove, Some, IfOk, OnOk, OnErr};
ghost use Rattle.std.specs.List.{insert};
ghost use Rattle.std.specs.Option.{option_copied};
ghost use Rattle.dl_pages.specs.Points.{IsPartitioned, IsPartitionPoint};

use crate::leaves::{MOST_ITEMS, roomy};
use crate::step::{NoStep, Step};
use crate::tree::{Part, gathered, top_of};
use crate::{Predicate, Ranked};
use dl_base::{Copied, List, Memory, Same};
use std::alloc::Global;
use std::marker::Model;
use std::mem;

/// A list whose copies share the pages that they have in common. Contracts see the list.
///
/// It is a tree of leaves of up to 16 items under pages of up to 4 parts, all leaves equally far from the top. A leaf or a page that
/// has become empty goes, and those that have become small are not joined: so a walk from the top to a leaf costs the logarithm of
/// the most items that there have been. Contracts don't say so, since only costs rest on it.
#[derive(Drop)]
pub struct Pages<T: Ranked> {
    top: Part<T>,
}

impl<T: Ranked> Model for Pages<T> {
    ghost use Rattle.std.specs.Prelude.{List};

    ghost Value = { List T };

    ghost view = { λ p. p.top.0 };
}

impl<T: Ranked> Pages<T> {
    /// The list of no items. It takes no memory.
    pub fn empty() -> Pages<T>
        ensures { result ≡ [] }
    {
        Pages { top: Part::blank() }
    }

    /// How many items there are. It takes no memory, and costs the same for each list.
    pub fn len(&self) -> usize
        ensures { result ≡ length self.now }
    {
        self.top.len()
    }

    /// The item at a place from 0; None past the last. It takes no memory. The cost is that of a walk from the top to a leaf.
    pub fn at(&self, index: usize) -> Option<&T>
        ensures { option_copied result ≡ slice_get self.now index }
    {
        self.top.at(index)
    }

    /// The item at a place from 0, where one stands. It takes no memory. The cost is that of a walk from the top to a leaf.
    #[tactic(auto, using(crate::proofs::Places::none_within))]
    pub fn item(&self, index: usize) -> &T
        requires { index < length self.now }
        ensures { slice_get self.now index ≡ Some result.now }
    {
        match self.at(index) {
            Some(item) => item,
            None => unreachable!(),
        }
    }
}

impl<T: Ranked> Pages<T> {
    /// How many items pass a test, where none that fails it is before one that passes it, as with `slice::partition_point`. It takes
    /// no memory. The cost is that of a walk from the top to a leaf.
    pub fn partition_point<F: Predicate<T>>(&self, predicate: &F) -> usize
        ensures within { result ≤ length self.now }
        ensures point { IsPartitioned (F.test predicate.now) self.now → IsPartitionPoint (F.test predicate.now) self.now result }
    {
        let (place, _) = self.first_failing(predicate);
        place
    }

    /// How many items pass a test, as `partition_point` tells, and the item that stands there, which is the first that fails it;
    /// None where all pass. It takes no memory. The cost is that of a walk from the top to a leaf.
    pub fn first_failing<F: Predicate<T>>(&self, predicate: &F) -> (usize, Option<&T>)
        ensures within { result.0 ≤ length self.now }
        ensures point { IsPartitioned (F.test predicate.now) self.now → IsPartitionPoint (F.test predicate.now) self.now result.0 }
        ensures item { option_copied result.1 ≡ slice_get self.now result.0 }
    {
        self.top.first_failing(predicate, predicate.pivot())
    }
}

impl<T: Drop + Ranked> Pages<T> {
    /// A list in pages. The cost grows with its length. The error is want of memory.
    pub fn of(alloc: Global, items: List<T>) -> Result<Pages<T>, Memory>
        ensures { IfOk result (λ made. made ≡ items) }
    {
        let mut parts = Vec::new(alloc);
        let mut row = roomy(alloc)?;
        for item in items.into_vec() {
            if row.len() == MOST_ITEMS {
                parts.push(Part::of_row(alloc, row)?)?;
                row = roomy(alloc)?;
            }
            row.push(item)?;
        }
        parts.push(Part::of_row(alloc, row)?)?;
        Ok(Pages {
            top: gathered(alloc, parts)?,
        })
    }

    /// The same list, which shares each page. It costs the same for each list: one count. The error is want of memory.
    pub fn share(&self) -> Result<Pages<T>, Memory>
        ensures { IfOk result (λ made. made ≡ self.now) }
    {
        Ok(Pages {
            top: self.top.share()?,
        })
    }
}

impl<T: Copied + Ranked> Pages<T> {
    /// The list with one more item at a place from 0; at its end where the place is past it. This list stays. The cost is that of
    /// a walk from the top to a leaf, and of copies of the leaf's items. The error is want of memory.
    pub fn inserted(&self, alloc: Global, index: usize, item: T) -> Result<Pages<T>, Memory>
        ensures { IfOk result (λ made. made ≡ insert self.now index item) }
    {
        if self.len() < index {
            return self.inserted_within(alloc, self.len(), item);
        }
        self.inserted_within(alloc, index, item)
    }

    fn inserted_within(&self, alloc: Global, index: usize, item: T) -> Result<Pages<T>, Memory>
        requires { index ≤ length self.now }
        ensures { IfOk result (λ made. made ≡ insert self.now index item) }
    {
        let made = self.top.inserted(alloc, index, item)?;
        Ok(Pages {
            top: top_of(alloc, made)?,
        })
    }

    /// The list with another item at a place from 0; the same list where no item stands there. This list stays. The cost is as that
    /// of `inserted`. The error is want of memory.
    pub fn replaced(&self, alloc: Global, index: usize, item: T) -> Result<Pages<T>, Memory>
        ensures { IfOk result (λ made. made ≡ slice_set self.now index item) }
    {
        Ok(Pages {
            top: self.top.replaced(alloc, index, item)?,
        })
    }

    /// The list without the item at a place from 0; the same list where no item stands there. This list stays. The cost is as that
    /// of `inserted`. The error is want of memory.
    pub fn removed(&self, alloc: Global, index: usize) -> Result<Pages<T>, Memory>
        ensures { IfOk result (λ made. made ≡ remove self.now index) }
    {
        Ok(Pages {
            top: self.top.removed(alloc, index)?.lowered()?,
        })
    }

    /// Takes the item at a place from 0 out; nothing changes where no item stands there. Where no other list shares a page on the way
    /// to it, and it is not alone in its leaf, the pages are changed where they stand, and it takes no memory; else the list becomes
    /// the one that `removed` makes. The cost is at most that of `removed`, and of a walk from the top to a leaf. The error is want
    /// of memory, and then the list is as it was.
    pub fn remove(&mut self, alloc: Global, index: usize) -> Result<(), Memory>
        ensures ok { OnOk result (self.new ≡ remove self.old index) }
        ensures err { OnErr result (self.new ≡ self.old) }
    {
        if take(self, index, &mut NoStep) {
            return Ok(());
        }
        let made = self.removed(alloc, index)?;
        drop(mem::replace(self, made));
        Ok(())
    }
}

// Takes an item out of a list where it stands, and makes a further change, as with `Part::take`; false also where no item is.
fn take<T: Drop + Ranked, S: Step>(pages: &mut Pages<T>, index: usize, step: &mut S) -> bool
    ensures taken { result ≡ true → pages.new ≡ remove pages.old index }
    ensures kept { result ≡ false → pages.new ≡ pages.old }
    ensures made { result ≡ true → S.made step.old step.new }
    ensures unmade { result ≡ false → step.new ≡ step.old }
{
    index < pages.len() && pages.top.take(index, step)
}

// An item to be taken out of a list beside another change.
#[derive(Drop)]
struct Taking<T: Ranked> {
    pages: Pages<T>,
    index: usize,
}

impl<T: Drop + Ranked> Step for Taking<T> {
    ghost use Rattle.std.specs.Prelude.{remove};

    ghost made = { λ old new. new.pages ≡ remove old.pages old.index };

    fn make(&mut self) -> bool {
        take(&mut self.pages, self.index, &mut NoStep)
    }
}

// Takes an item out of each of two lists where they stand; false where that can't be, and then nothing has changed.
pub fn take_both<A: Drop + Ranked, B: Drop + Ranked>(
    pages: &mut Pages<A>,
    index: usize,
    others: &mut Pages<B>,
    place: usize,
) -> bool
    ensures taken { result ≡ true → (pages.new ≡ remove pages.old index) × (others.new ≡ remove others.old place) }
    ensures kept { result ≡ false → (pages.new ≡ pages.old) × (others.new ≡ others.old) }
{
    let mut taking = Taking {
        pages: mem::replace(others, Pages::empty()),
        index: place,
    };
    let taken = take(pages, index, &mut taking);
    drop(mem::replace(others, taking.pages));
    taken
}

impl<T: Drop + Ranked> Copied for Pages<T> {
    fn copy(&self) -> Result<Pages<T>, Memory> {
        self.share()
    }
}

impl<T: Same + Ranked> Same for Pages<T> {
    #[tactic(auto, using(crate::proofs::Same::take_same))]
    fn same(&self, other: &Pages<T>) -> bool {
        if self.len() != other.len() {
            return false;
        }
        for i in 0..self.len() {
            if !same_at(self, other, i) {
                return false;
            }
        }
        true
    }
}

// Whether two lists have the same at a place.
fn same_at<T: Same + Ranked>(pages: &Pages<T>, others: &Pages<T>, index: usize) -> bool
    ensures { IsTrue result ↔ (slice_get pages.now index ≡ slice_get others.now index) }
{
    match (pages.at(index), others.at(index)) {
        (Some(item), Some(other)) => item.same(other),
        (None, None) => true,
        _ => false,
    }
}
