// How values are put into bytes and read from them: numbers, flags, options, pairs, lists, texts, paths and names.
ghost use Rattle.std.specs.Prelude.{◌≡◌, ◌++◌, OnOk};
ghost use Rattle.dl_codec.specs.Layout.{Layout, DecodesTo, times, text};

use crate::read_fault::ReadFault;
use dl_base::{List, Memory, Name, Path, Text, is_name, is_path};
use std::alloc::Global;

/// A type whose values lie in bytes by one layout.
pub trait Spelled: Drop {
    ghost layout: { Layout Self };

    /// Appends the bytes of the value. An `Ok` says that it has some.
    fn put(&self, into: &mut List<u8>) -> Result<(), Memory>
        ensures { OnOk result (layout.fits self.now × (into.new ≡ into.old ++ layout.spelling self.now)) };

    /// The value at the front, and the bytes behind it, which are not copied.
    fn get(alloc: Global, bytes: &[u8]) -> Result<(Self, &[u8]), ReadFault>
        ensures { DecodesTo (λ x. (x.0, x.1.now)) result (layout.reading bytes.now) };
}

#[tactic(auto, unfolding(crate::specs::Layout::u32))]
impl Spelled for u32 {
    ghost use Rattle.dl_codec.specs.Layout.{u32 as layout32};

    ghost layout = { layout32 };

    fn put(&self, into: &mut List<u8>) -> Result<(), Memory> {
        into.extend(&self.to_be_bytes())
    }

    fn get(_alloc: Global, bytes: &[u8]) -> Result<(u32, &[u8]), ReadFault> {
        if bytes.len() < 4 {
            return Err(ReadFault::Bad);
        }
        let (front, rest) = bytes.split_at(4);
        let number = u32::from_be_bytes([front[0], front[1], front[2], front[3]]);
        Ok((number, rest))
    }
}

#[tactic(auto, unfolding(crate::specs::Layout::u64))]
impl Spelled for u64 {
    ghost use Rattle.dl_codec.specs.Layout.{u64 as layout64};

    ghost layout = { layout64 };

    fn put(&self, into: &mut List<u8>) -> Result<(), Memory> {
        into.extend(&self.to_be_bytes())
    }

    fn get(_alloc: Global, bytes: &[u8]) -> Result<(u64, &[u8]), ReadFault> {
        if bytes.len() < 8 {
            return Err(ReadFault::Bad);
        }
        let (front, rest) = bytes.split_at(8);
        let mut number = [0u8; 8];
        number.copy_from_slice(front);
        Ok((u64::from_be_bytes(number), rest))
    }
}

#[tactic(auto, unfolding(crate::specs::Layout::i64))]
impl Spelled for i64 {
    ghost use Rattle.dl_codec.specs.Layout.{i64 as signed64};

    ghost layout = { signed64 };

    fn put(&self, into: &mut List<u8>) -> Result<(), Memory> {
        self.cast_unsigned().put(into)
    }

    fn get(alloc: Global, bytes: &[u8]) -> Result<(i64, &[u8]), ReadFault> {
        let (bits, rest) = u64::get(alloc, bytes)?;
        Ok((bits.cast_signed(), rest))
    }
}

#[tactic(auto, unfolding(crate::specs::Layout::bool))]
impl Spelled for bool {
    ghost use Rattle.dl_codec.specs.Layout.{bool as flag};

    ghost layout = { flag };

    fn put(&self, into: &mut List<u8>) -> Result<(), Memory> {
        if *self {
            into.extend(&[1])
        } else {
            into.extend(&[0])
        }
    }

    fn get(_alloc: Global, bytes: &[u8]) -> Result<(bool, &[u8]), ReadFault> {
        match bytes {
            [0, rest @ ..] => Ok((false, rest)),
            [1, rest @ ..] => Ok((true, rest)),
            _ => Err(ReadFault::Bad),
        }
    }
}

impl<T: Spelled> Spelled for Option<T> {
    ghost use Rattle.dl_codec.specs.Layout.{option};

    ghost layout = { option T.layout };

    fn put(&self, into: &mut List<u8>) -> Result<(), Memory> {
        match self {
            None => into.extend(&[0]),
            Some(item) => {
                into.extend(&[1])?;
                item.put(into)
            }
        }
    }

    fn get(alloc: Global, bytes: &[u8]) -> Result<(Option<T>, &[u8]), ReadFault> {
        match bytes {
            [0, rest @ ..] => Ok((None, rest)),
            [1, rest @ ..] => {
                let (item, rest) = T::get(alloc, rest)?;
                Ok((Some(item), rest))
            }
            _ => Err(ReadFault::Bad),
        }
    }
}

impl<A: Spelled, B: Spelled> Spelled for (A, B) {
    ghost use Rattle.dl_codec.specs.Layout.{pair};

    ghost layout = { pair A.layout B.layout };

    fn put(&self, into: &mut List<u8>) -> Result<(), Memory> {
        self.0.put(into)?;
        self.1.put(into)
    }

    fn get(alloc: Global, bytes: &[u8]) -> Result<((A, B), &[u8]), ReadFault> {
        let (first, rest) = A::get(alloc, bytes)?;
        let (second, rest) = B::get(alloc, rest)?;
        Ok(((first, second), rest))
    }
}

impl<T: Spelled> Spelled for List<T> {
    ghost use Rattle.dl_codec.specs.Layout.{list};

    ghost layout = { list T.layout };

    fn put(&self, into: &mut List<u8>) -> Result<(), Memory> {
        let Ok(count) = u32::try_from(self.len()) else {
            return Err(Memory);
        };
        count.put(into)?;
        for item in self.as_slice() {
            item.put(into)?;
        }
        Ok(())
    }

    fn get(alloc: Global, bytes: &[u8]) -> Result<(List<T>, &[u8]), ReadFault> {
        let (count, rest) = u32::get(alloc, bytes)?;
        items_of(alloc, count, rest)
    }
}

/// So many items, one after another.
fn items_of<T: Spelled>(
    alloc: Global,
    count: u32,
    bytes: &[u8],
) -> Result<(List<T>, &[u8]), ReadFault>
    ensures { DecodesTo (λ x. (x.0, x.1.now)) result (times T.layout.reading count bytes.now) }
{
    let mut items = List::empty(alloc);
    let mut rest = bytes;
    for _ in 0..count {
        let (item, after) = T::get(alloc, rest)?;
        items.push(item)?;
        rest = after;
    }
    Ok((items, rest))
}

/// Appends the length, and the bytes.
#[tactic(auto, unfolding(crate::specs::Layout::text))]
fn put_text(bytes: &[u8], into: &mut List<u8>) -> Result<(), Memory>
    ensures { OnOk result (text.fits bytes.now × (into.new ≡ into.old ++ text.spelling bytes.now)) }
{
    let Ok(count) = u32::try_from(bytes.len()) else {
        return Err(Memory);
    };
    count.put(into)?;
    into.extend(bytes)
}

/// The bytes of the text at the front, and the bytes behind it, none of them copied.
#[tactic(auto, unfolding(crate::specs::Layout::text))]
fn text_part(alloc: Global, bytes: &[u8]) -> Result<(&[u8], &[u8]), ReadFault>
    ensures { DecodesTo (λ x. (x.0.now, x.1.now)) result (text.reading bytes.now) }
{
    let (count, rest) = u32::get(alloc, bytes)?;
    let count = count as usize;
    if rest.len() < count {
        return Err(ReadFault::Bad);
    }
    Ok(rest.split_at(count))
}

impl Spelled for Text {
    ghost use Rattle.dl_codec.specs.Layout.{text};

    ghost layout = { text };

    fn put(&self, into: &mut List<u8>) -> Result<(), Memory> {
        put_text(self.bytes(), into)
    }

    fn get(alloc: Global, bytes: &[u8]) -> Result<(Text, &[u8]), ReadFault> {
        let (front, rest) = text_part(alloc, bytes)?;
        Ok((Text::of(alloc, front)?, rest))
    }
}

#[tactic(auto, unfolding(crate::specs::Layout::path))]
impl Spelled for Path {
    ghost use Rattle.dl_codec.specs.Layout.{path};

    ghost layout = { path };

    fn put(&self, into: &mut List<u8>) -> Result<(), Memory> {
        put_text(self.bytes(), into)
    }

    fn get(alloc: Global, bytes: &[u8]) -> Result<(Path, &[u8]), ReadFault> {
        let (front, rest) = text_part(alloc, bytes)?;
        if !is_path(front) {
            return Err(ReadFault::Bad);
        }
        Ok((Path::of(alloc, front)?, rest))
    }
}

#[tactic(auto, unfolding(crate::specs::Layout::name))]
impl Spelled for Name {
    ghost use Rattle.dl_codec.specs.Layout.{name};

    ghost layout = { name };

    fn put(&self, into: &mut List<u8>) -> Result<(), Memory> {
        put_text(self.bytes(), into)
    }

    fn get(alloc: Global, bytes: &[u8]) -> Result<(Name, &[u8]), ReadFault> {
        let (front, rest) = text_part(alloc, bytes)?;
        if !is_name(front) {
            return Err(ReadFault::Bad);
        }
        Ok((Name::of(alloc, front)?, rest))
    }
}
