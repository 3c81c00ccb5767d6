// Values that take all of the bytes.
ghost use Rattle.std.specs.Prelude.{◌≡◌, ◌++◌, OnOk, OnErr, IfOk};
ghost use Rattle.dl_codec.specs.Layout.{ended, whole};

use crate::read_fault::ReadFault;
use crate::spelled::Spelled;
use dl_base::{List, Memory};
use std::alloc::Global;

/// Appends the bytes of a value. An `Err` leaves what stood there.
pub fn put_whole<T: Spelled>(into: &mut List<u8>, x: &T) -> Result<(), Memory>
    ensures ok { OnOk result (T.layout.fits x.now × (into.new ≡ into.old ++ T.layout.spelling x.now)) }
    ensures err { OnErr result (into.new ≡ into.old) }
{
    let mut body = List::empty(into.allocator());
    x.put(&mut body)?;
    if into.len() == 0 {
        // The bytes need no second copy.
        *into = body;
        return Ok(());
    }
    into.extend(body.as_slice())
}

/// The value that has these bytes, all of them; `None` where no value has them.
pub fn get_whole<T: Spelled>(alloc: Global, bytes: &[u8]) -> Result<Option<T>, Memory>
    ensures { IfOk result (λ found. found ≡ whole T.layout bytes.now) }
{
    match T::get(alloc, bytes) {
        Ok(found) => Ok(if_ended(found)),
        Err(ReadFault::Bad) => Ok(None),
        Err(ReadFault::Memory) => Err(Memory),
    }
}

/// The value, if no bytes are left.
fn if_ended<T: Drop>(found: (T, &[u8])) -> Option<T>
    ensures { result ≡ ended found.entry.0 found.entry.1.now }
{
    let (value, rest) = found;
    match rest {
        [] => Some(value),
        _ => None,
    }
}
