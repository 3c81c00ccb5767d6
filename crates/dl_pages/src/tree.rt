// The tree under a list: parts, each a leaf or a page of parts. No part is changed once it stands in a page, unless no other list
// shares the page.
ghost use Rattle.std.specs.Prelude.{◌≡◌, ◌⊎◌, ℕ, Ok, true, false, [], ◌∷◌, ◌++◌, ◌+◌, ◌<◌, ◌≤◌, length, drop, slice_get, slice_set, remove, is_err, IfOk, OnOk, OnErr, IfSome, IfNone, MatchOption};
ghost use Rattle.std.specs.List.{insert};
ghost use Rattle.std.specs.Option.{option_copied};
ghost use Rattle.dl_pages.specs.Listing.{flatten, AreFilled, AreBelow, FirstTests, IsSeat};
ghost use Rattle.dl_pages.specs.Points.{IsPartitioned, IsPartitionPoint};

use crate::leaves::{
    MOST_ITEMS, first_failing_of, halved, item_at, rank_of, roomy, take_of_leaf, with_item,
    with_other, without_item,
};
use crate::step::Step;
use crate::{Predicate, Ranked};
use dl_base::{Copied, List, Memory};
use std::alloc::Global;
use std::marker::Model;
use std::sync::Arc;

// How many parts a page holds.
const MOST_PARTS: usize = 4;

// How many parts the first of two pages gets.
const HALF: usize = MOST_PARTS / 2;

// A page, or a leaf, or nothing; how many items there are, and the rank of the first. A search reads ranks and counts here, and no
// page or leaf that it does not enter.
#[cycle(tree)]
#[derive(Drop)]
pub struct Part<T: Ranked> {
    rank: u64,
    len: usize,
    below: Below<List<T>, Page<T>>,
}

// What a part is: a leaf, or a page, or nothing.
#[derive(Drop)]
pub enum Below<L, P> {
    Nothing,
    Leaf(Arc<L>),
    Page(Arc<P>),
}

impl<T: Ranked> Model for Part<T> {
    ghost use Rattle.std.specs.Prelude.{List, ℕ, length, ◌≡◌};
    ghost use Rattle.dl_pages.specs.Listing.{seen, HasRank};
    ghost use Rattle.std.proofs.Common.{arith};

    ghost Value = { List T × ℕ };

    ghost view = { λ p. seen p.below };

    ghost invariant = { λ p. (p.len ≡ length (seen p.below).0) × HasRank T.rank p.rank (seen p.below).0 };

    ghost size = { λ v. v.1 };

    ghost size_decreases = { λ a h. Prim.grind (arith) };
}

// Parts in a row, the first `used` of the places. A new page is filled before it is shared.
#[cycle(tree)]
#[derive(Drop)]
pub struct Page<T: Ranked> {
    rank: u64,
    len: usize,
    used: usize,
    parts: [Part<T>; MOST_PARTS],
}

impl<T: Ranked> Model for Page<T> {
    ghost use Rattle.std.specs.Prelude.{List, ℕ, length, ◌≡◌, ◌≤◌, ◌+◌, take};
    ghost use Rattle.dl_pages.specs.Listing.{flatten, HasRank, AreFilled};
    ghost use Rattle.std.proofs.Common.{arith};
    ghost use denote.Param.Weighed.{most};

    ghost Value = { List T × ℕ };

    ghost view = { λ p. (flatten (take p.used p.parts), most (λ v. v.1 + 1) p.parts) };

    ghost invariant = { λ p. (p.used ≤ 4) × (p.len ≡ length (flatten (take p.used p.parts))) × HasRank T.rank p.rank (flatten (take p.used p.parts)) × AreFilled (take p.used p.parts) };

    ghost size = { λ v. v.1 };

    ghost size_decreases = { λ a h. Prim.grind (arith) };
}

// What a part has become: two where it was full, else the second is blank.
#[derive(Drop)]
pub struct Made<T: Ranked> {
    pub first: Part<T>,
    pub second: Part<T>,
}

impl<T: Ranked> Made<T> {
    fn one(part: Part<T>) -> Made<T>
        ensures first { result.first ≡ part }
        ensures second { result.second.0 ≡ [] }
    {
        Made {
            first: part,
            second: Part::blank(),
        }
    }

    // How many places it takes in a page.
    fn places(&self) -> usize
        ensures { result ≤ 2 }
    {
        if self.second.len == 0 { 1 } else { 2 }
    }
}

// A part that has become one, where it was made.
fn alone<T: Drop + Ranked>(part: Result<Part<T>, Memory>) -> Result<Made<T>, Memory>
    ensures parts { IfOk result (λ made. (part ≡ Ok made.first) × (made.second.0 ≡ [])) }
    ensures memory { OnErr result (is_err part ≡ true) }
{
    Ok(Made::one(part?))
}

// A part that has become two, where both were made.
fn both<T: Drop + Ranked>(
    first: Result<Part<T>, Memory>,
    second: Result<Part<T>, Memory>,
) -> Result<Made<T>, Memory>
    ensures parts { IfOk result (λ made. (first ≡ Ok made.first) × (second ≡ Ok made.second)) }
    ensures memory { OnErr result ((is_err first ≡ true) ⊎ (is_err second ≡ true)) }
{
    match first {
        Ok(first) => match second {
            Ok(second) => Ok(Made { first, second }),
            Err(Memory) => {
                drop(first);
                Err(Memory)
            }
        },
        Err(Memory) => {
            drop(second);
            Err(Memory)
        }
    }
}

// A part among others, and a place in it.
#[derive(Drop)]
struct Spot<'a, T: Ranked> {
    before: &'a [Part<T>],
    part: &'a Part<T>,
    behind: &'a [Part<T>],
    index: usize,
}

// Where the item at a place stands; None past the last.
#[tactic(auto, using(crate::proofs::Parts::len_step, crate::proofs::Parts::len_split, crate::proofs::Parts::split_at, crate::proofs::Parts::len_all, crate::proofs::Parts::none_left))]
fn find<T: Ranked>(parts: &[Part<T>], index: usize) -> Option<Spot<'_, T>>
    ensures split { IfSome result (λ s. parts.now ≡ s.before.now ++ s.part.now ∷ s.behind.now) }
    ensures within { IfSome result (λ s. s.index < length s.part.now.0) }
    ensures at { IfSome result (λ s. length (flatten s.before.now) + s.index ≡ index) }
    ensures none { IfNone result (length (flatten parts.now) ≤ index) }
{
    let mut left = index;
    for i in 0..parts.len() {
        let (before, rest) = parts.split_at(i);
        let Some((part, behind)) = rest.split_first() else {
            unreachable!();
        };
        let len = part.len();
        if left < len {
            return Some(Spot {
                before,
                part,
                behind,
                index: left,
            });
        }
        left -= len;
    }
    None
}

// How many items are in parts.
fn count<T: Ranked>(parts: &[Part<T>]) -> usize
    requires { length (flatten parts.now) < 18446744073709551616 }
    ensures { result ≡ length (flatten parts.now) }
{
    let mut count = 0;
    let mut rest = parts;
    while let Some((part, behind)) = rest.split_first() {
        count += part.len();
        rest = behind;
    }
    count
}

// The first item of parts.
fn first_of<T: Ranked>(parts: &[Part<T>]) -> Option<&T>
    requires { AreFilled parts.now }
    ensures { option_copied result ≡ slice_get (flatten parts.now) 0 }
{
    match parts.first() {
        Some(part) => part.at(0),
        None => None,
    }
}

// Which part to go into for the first item that fails a test: the last one whose first item passes it, or the first part.
fn entry<T: Ranked, F: Predicate<T>>(parts: &[Part<T>], predicate: &F, pivot: u64) -> usize
    requires some { 0 < length parts.now }
    requires filled { AreFilled parts.now }
    requires pivot { pivot ≡ F.pivot predicate.now }
    ensures within { result < length parts.now }
    ensures passing { 0 < result → FirstTests (F.test predicate.now) true (flatten (drop result parts.now)) }
    ensures failing { FirstTests (F.test predicate.now) false (flatten (drop (result + 1) parts.now)) }
{
    for next in 1..parts.len() {
        if !parts[next].begins_passing(predicate, pivot) {
            return next - 1;
        }
    }
    parts.len() - 1
}

impl<T: Ranked> Part<T> {
    pub fn blank() -> Part<T>
        ensures { result.0 ≡ [] }
    {
        Part {
            rank: 0,
            len: 0,
            below: Below::Nothing,
        }
    }

    pub fn len(&self) -> usize
        ensures { result ≡ length self.now.0 }
    {
        self.len
    }

    // The items of a part of no page.
    fn row(&self) -> &[T]
        requires { self.now.1 ≡ 0 }
        ensures { result.now ≡ self.now.0 }
    {
        match &self.below {
            Below::Leaf(leaf) => leaf.as_slice(),
            _ => &[],
        }
    }

    // The page, where the part is one.
    fn page(&self) -> Option<&Page<T>>
        ensures { MatchOption result (self.now.1 ≡ 0) (λ p. (p.now.0 ≡ self.now.0) × (p.now.1 + 1 ≡ self.now.1)) }
    {
        match &self.below {
            Below::Page(page) => Some(page),
            _ => None,
        }
    }

    #[tactic(auto, using(crate::proofs::Parts::get_split, crate::proofs::Parts::below_split))]
    pub fn at(&self, index: usize) -> Option<&T>
        ensures { option_copied result ≡ slice_get self.now.0 index }
    {
        match self.page() {
            Some(page) => {
                match find(page.parts(), index) {
                    Some(spot) => spot.part.at(spot.index),
                    None => None,
                }
            }
            None => item_at(self.row(), index),
        }
    }

    // Whether the first item passes a test. Where the rank tells, no item is looked at.
    fn begins_passing<F: Predicate<T>>(&self, predicate: &F, pivot: u64) -> bool
        requires { pivot ≡ F.pivot predicate.now }
        ensures { MatchOption (slice_get self.now.0 0) (result ≡ true) (λ x. result ≡ F.test predicate.now x) }
    {
        if self.len == 0 {
            return true;
        }
        if self.rank != pivot {
            return self.rank < pivot;
        }
        match self.at(0) {
            Some(item) => predicate.passes(item),
            None => true,
        }
    }

    #[tactic(auto, using(crate::proofs::Parts::none_left, crate::proofs::Turns::below_at, crate::proofs::Turns::some_parts))]
    pub fn first_failing<F: Predicate<T>>(&self, predicate: &F, pivot: u64) -> (usize, Option<&T>)
        requires { pivot ≡ F.pivot predicate.now }
        ensures within { result.0 ≤ length self.now.0 }
        ensures point { IsPartitioned (F.test predicate.now) self.now.0 → IsPartitionPoint (F.test predicate.now) self.now.0 result.0 }
        ensures item { option_copied result.1 ≡ slice_get self.now.0 result.0 }
    {
        if self.len == 0 {
            return (0, None);
        }
        match self.page() {
            Some(page) => {
                let parts = page.parts();
                let (before, rest) = parts.split_at(entry(parts, predicate, pivot));
                let Some((part, behind)) = rest.split_first() else {
                    unreachable!();
                };
                let (within, item) = part.first_failing(predicate, pivot);
                let place = count(before) + within;
                match item {
                    Some(item) => (place, Some(item)),
                    None => (place, first_of(behind)),
                }
            }
            None => first_failing_of(self.row(), predicate, pivot),
        }
    }
}

impl<T: Drop + Ranked> Part<T> {
    fn of_page(alloc: Global, page: Page<T>) -> Result<Part<T>, Memory>
        ensures { IfOk result (λ made. made.0 ≡ page.0) }
    {
        Ok(Part {
            rank: page.rank,
            len: page.len,
            below: Below::Page(Arc::new(alloc, page)?),
        })
    }

    // A leaf.
    pub fn of_row(alloc: Global, row: Vec<T>) -> Result<Part<T>, Memory>
        ensures { IfOk result (λ made. made.0 ≡ row.items) }
    {
        Ok(Part {
            rank: rank_of(row.as_slice()),
            len: row.len(),
            below: Below::Leaf(Arc::new(alloc, List::from_vec(row))?),
        })
    }

    // A leaf of one item.
    fn of_item(alloc: Global, item: T) -> Result<Part<T>, Memory>
        ensures { IfOk result (λ made. made.0 ≡ item ∷ []) }
    {
        let mut row = roomy(alloc)?;
        row.push(item)?;
        Part::of_row(alloc, row)
    }

    // Reads the count of owners, which `share` will write.
    fn prefetch(&self) {
        match &self.below {
            Below::Nothing => {}
            Below::Leaf(leaf) => {
                let _ = Arc::strong_count(leaf);
            }
            Below::Page(page) => {
                let _ = Arc::strong_count(page);
            }
        }
    }

    pub fn share(&self) -> Result<Part<T>, Memory>
        ensures { IfOk result (λ made. made.0 ≡ self.now.0) }
    {
        let below = match &self.below {
            Below::Nothing => Below::Nothing,
            Below::Leaf(leaf) => Below::Leaf(Arc::try_clone(leaf)?),
            Below::Page(page) => Below::Page(Arc::try_clone(page)?),
        };
        Ok(Part {
            rank: self.rank,
            len: self.len,
            below,
        })
    }

    // The same items as low as they may stand: in place of a page of one part, that part.
    #[tactic(auto, using(crate::proofs::Parts::below_first, crate::proofs::Parts::flatten_one))]
    pub fn lowered(&self) -> Result<Part<T>, Memory>
        ensures { IfOk result (λ made. made.0 ≡ self.now.0) }
    {
        let Some(page) = self.page() else {
            return self.share();
        };
        match page.parts().split_first() {
            Some((part, behind)) if behind.is_empty() => part.lowered(),
            _ => self.share(),
        }
    }
}

impl<T: Copied + Ranked> Part<T> {
    #[tactic(auto, using(crate::proofs::Parts::below_split))]
    pub fn inserted(&self, alloc: Global, index: usize, item: T) -> Result<Made<T>, Memory>
        requires { index ≤ length self.now.0 }
        ensures { IfOk result (λ made. made.first.0 ++ made.second.0 ≡ insert self.now.0 index item) }
    {
        let Some(page) = self.page() else {
            return self.inserted_in_row(alloc, index, item);
        };
        let last = index.saturating_sub(1);
        match find(page.parts(), last) {
            Some(spot) => {
                prefetch_parts(spot.before);
                prefetch_parts(spot.behind);
                let made = spot
                    .part
                    .inserted(alloc, spot.index + (index - last), item)?;
                parted(alloc, spot.before, made, spot.behind)
            }
            None => both(self.share(), Part::of_item(alloc, item)),
        }
    }

    // A part of no page, with one more item: two leaves where its own is full. An item that is new at the end of a full leaf stands
    // alone in the second one, so that items which come in order fill the leaves.
    fn inserted_in_row(&self, alloc: Global, index: usize, item: T) -> Result<Made<T>, Memory>
        requires row { self.now.1 ≡ 0 }
        requires within { index ≤ length self.now.0 }
        ensures { IfOk result (λ made. made.first.0 ++ made.second.0 ≡ insert self.now.0 index item) }
    {
        let row = self.row();
        if row.len() < MOST_ITEMS {
            let row = with_item(alloc, row, index, item)?;
            return alone(Part::of_row(alloc, row));
        }
        if index == row.len() {
            return both(self.share(), Part::of_item(alloc, item));
        }
        let (front, back) = halved(alloc, row, index, item)?;
        both(Part::of_row(alloc, front), Part::of_row(alloc, back))
    }

    #[tactic(auto, using(crate::proofs::Parts::below_split))]
    pub fn replaced(&self, alloc: Global, index: usize, item: T) -> Result<Part<T>, Memory>
        ensures { IfOk result (λ made. made.0 ≡ slice_set self.now.0 index item) }
    {
        if self.len() <= index {
            return self.share();
        }
        let Some(page) = self.page() else {
            return Part::of_row(alloc, with_other(alloc, self.row(), index, item)?);
        };
        match find(page.parts(), index) {
            Some(spot) => {
                prefetch_parts(spot.before);
                prefetch_parts(spot.behind);
                let made = spot.part.replaced(alloc, spot.index, item)?;
                page_of(alloc, spot.before, Made::one(made), spot.behind)
            }
            None => self.share(),
        }
    }

    #[tactic(auto, using(crate::proofs::Parts::below_split))]
    pub fn removed(&self, alloc: Global, index: usize) -> Result<Part<T>, Memory>
        ensures { IfOk result (λ made. made.0 ≡ remove self.now.0 index) }
    {
        if self.len() <= index {
            return self.share();
        }
        let Some(page) = self.page() else {
            return Part::of_row(alloc, without_item(alloc, self.row(), index)?);
        };
        match find(page.parts(), index) {
            Some(spot) => {
                prefetch_parts(spot.before);
                prefetch_parts(spot.behind);
                let made = spot.part.removed(alloc, spot.index)?;
                page_of(alloc, spot.before, Made::one(made), spot.behind)
            }
            None => self.share(),
        }
    }
}

// Which part the item at a place is in, and where in that part; None past the last.
#[tactic(auto, using(crate::proofs::Taking::len_at))]
fn seat<T: Ranked>(parts: &[Part<T>], index: usize) -> Option<(usize, usize)>
    ensures { IfSome result (λ s. IsSeat parts.now index s.0 s.1) }
{
    let mut left = index;
    for i in 0..parts.len() {
        let len = parts[i].len();
        if left < len {
            return Some((i, left));
        }
        left -= len;
    }
    None
}

impl<T: Drop + Ranked> Part<T> {
    // Takes an item out where it stands, and makes a further change; false where another list shares a page on the way to the item,
    // where a leaf would be left without items, or where the change is not made, and then nothing has changed. How high the part
    // stands stays.
    pub fn take<S: Step>(&mut self, index: usize, step: &mut S) -> bool
        requires { index < length self.old.0 }
        ensures taken { result ≡ true → self.new.0 ≡ remove self.old.0 index }
        ensures some { result ≡ true → 1 < length self.old.0 }
        ensures kept { result ≡ false → self.new ≡ self.old }
        ensures high { self.new.1 ≡ self.old.1 }
        ensures made { result ≡ true → S.made step.old step.new }
        ensures unmade { result ≡ false → step.new ≡ step.old }
    {
        if self.len < 2 {
            return false;
        }
        match &mut self.below {
            Below::Nothing => false,
            Below::Leaf(leaf) => {
                let Some(rank) = take_of_leaf(leaf, index, step) else {
                    return false;
                };
                self.rank = rank;
                self.len -= 1;
                true
            }
            Below::Page(page) => {
                let Some(page) = Arc::get_mut(page) else {
                    return false;
                };
                let Some((at, left)) = seat(&page.parts[..page.used], index) else {
                    return false;
                };
                let part = &mut page.parts[at];
                if !part.take(left, step) {
                    return false;
                }
                page.len -= 1;
                let first = &page.parts[0];
                page.rank = first.rank;
                self.rank = page.rank;
                self.len -= 1;
                true
            }
        }
    }
}

impl<T: Ranked> Page<T> {
    // The parts, each with an item.
    #[tactic(auto, using(crate::proofs::Parts::below_most))]
    fn parts(&self) -> &[Part<T>]
        ensures items { flatten result.now ≡ self.now.0 }
        ensures filled { AreFilled result.now }
        ensures below { AreBelow self.now.1 result.now }
    {
        &self.parts[..self.used]
    }

    fn empty() -> Page<T>
        ensures { result.0 ≡ [] }
    {
        Page {
            rank: 0,
            len: 0,
            used: 0,
            parts: [Part::blank(), Part::blank(), Part::blank(), Part::blank()],
        }
    }
}

impl<T: Drop + Ranked> Page<T> {
    // Puts a part at the end; one of no items is left out. More parts than a page holds, and a length past `usize`, are answered as
    // want of memory, so that no caller owes a bound.
    fn push(&mut self, part: Part<T>) -> Result<(), Memory>
        ensures { OnOk result (self.new.0 ≡ self.old.0 ++ part.0) }
    {
        if part.len == 0 {
            return Ok(());
        }
        let Some(len) = self.len.checked_add(part.len) else {
            return Err(Memory);
        };
        if self.used >= MOST_PARTS {
            return Err(Memory);
        }
        self.rank = first_rank(self.len, self.rank, part.rank);
        self.len = len;
        self.parts[self.used] = part;
        self.used += 1;
        Ok(())
    }

    // Puts parts at the end, which other pages keep too.
    fn push_shared(&mut self, parts: &[Part<T>]) -> Result<(), Memory>
        ensures { OnOk result (self.new.0 ≡ self.old.0 ++ flatten parts.now) }
    {
        let mut rest = parts;
        while let Some((part, behind)) = rest.split_first() {
            self.push(part.share()?)?;
            rest = behind;
        }
        Ok(())
    }
}

// Reads what shares of some parts will write: on the way down, so that the processor waits for all of that memory at once.
fn prefetch_parts<T: Drop + Ranked>(parts: &[Part<T>]) {
    for part in parts {
        part.prefetch();
    }
}

// The rank of the first of some items and of more behind them.
fn first_rank(len: usize, rank: u64, next: u64) -> u64
    ensures none { len ≡ 0 → result ≡ next }
    ensures some { 0 < len → result ≡ rank }
{
    if len == 0 { next } else { rank }
}

// A page of parts that other pages keep too, and of what a part between them has become.
fn page_of<T: Drop + Ranked>(
    alloc: Global,
    before: &[Part<T>],
    made: Made<T>,
    behind: &[Part<T>],
) -> Result<Part<T>, Memory>
    ensures { IfOk result (λ page. page.0 ≡ flatten before.now ++ ((made.first.0 ++ made.second.0) ++ flatten behind.now)) }
{
    let mut page = Page::empty();
    page.push_shared(before)?;
    page.push(made.first)?;
    page.push(made.second)?;
    page.push_shared(behind)?;
    Part::of_page(alloc, page)
}

// A page of parts that other pages keep too.
fn page_of_parts<T: Drop + Ranked>(alloc: Global, parts: &[Part<T>]) -> Result<Part<T>, Memory>
    ensures { IfOk result (λ page. page.0 ≡ flatten parts.now) }
{
    let mut page = Page::empty();
    page.push_shared(parts)?;
    Part::of_page(alloc, page)
}

// What a top has become, under one top.
pub fn top_of<T: Drop + Ranked>(alloc: Global, made: Made<T>) -> Result<Part<T>, Memory>
    ensures { IfOk result (λ top. top.0 ≡ made.first.0 ++ made.second.0) }
{
    if made.second.len == 0 {
        let Made { first, second } = made;
        drop(second);
        return Ok(first);
    }
    page_of_made(alloc, made)
}

// A page of what a part has become.
fn page_of_made<T: Drop + Ranked>(alloc: Global, made: Made<T>) -> Result<Part<T>, Memory>
    ensures { IfOk result (λ page. page.0 ≡ made.first.0 ++ made.second.0) }
{
    let mut page = Page::empty();
    page.push(made.first)?;
    page.push(made.second)?;
    Part::of_page(alloc, page)
}

// The same as `page_of` in two pages where there are more parts than one holds: in halves, or the last alone where it is new at the
// end, so that items which come in order fill the pages.
#[tactic(auto, using(crate::proofs::Parts::flatten_at))]
fn parted<T: Drop + Ranked>(
    alloc: Global,
    before: &[Part<T>],
    made: Made<T>,
    behind: &[Part<T>],
) -> Result<Made<T>, Memory>
    ensures { IfOk result (λ parts. parts.first.0 ++ parts.second.0 ≡ flatten before.now ++ ((made.first.0 ++ made.second.0) ++ flatten behind.now)) }
{
    if before.len() + made.places() + behind.len() <= MOST_PARTS {
        return alone(page_of(alloc, before, made, behind));
    }
    if behind.is_empty() {
        let Made { first, second } = made;
        return both(
            page_of(alloc, before, Made::one(first), behind),
            page_of_made(alloc, Made::one(second)),
        );
    }
    if before.len() >= HALF {
        let (front, back) = before.split_at(HALF);
        return both(
            page_of_parts(alloc, front),
            page_of(alloc, back, made, behind),
        );
    }
    let (front, back) = behind.split_at(HALF - 1 - before.len());
    both(
        page_of(alloc, before, made, front),
        page_of_parts(alloc, back),
    )
}

// Parts under one top: pages of four, as often as it takes. Thirty-two rounds are enough for a length of 64 bits.
pub fn gathered<T: Drop + Ranked>(alloc: Global, parts: Vec<Part<T>>) -> Result<Part<T>, Memory>
    ensures { IfOk result (λ made. made.0 ≡ flatten parts.items) }
{
    let mut parts = parts;
    for _ in 0..32 {
        if parts.len() <= 1 {
            break;
        }
        parts = in_pages(alloc, parts.as_slice())?;
    }
    let page = page_of_parts(alloc, parts.as_slice())?;
    page.lowered()
}

// Parts in pages of four.
fn in_pages<T: Drop + Ranked>(alloc: Global, parts: &[Part<T>]) -> Result<Vec<Part<T>>, Memory>
    ensures { IfOk result (λ made. flatten made.items ≡ flatten parts.now) }
{
    let mut made = Vec::new(alloc);
    for few in parts.chunks(MOST_PARTS) {
        made.push(page_of_parts(alloc, few)?)?;
    }
    Ok(made)
}
