ghost use Rattle.std.specs.Prelude.{◌≡◌, IfOk, length};

use crate::{Copied, Memory, Same};
use std::alloc::Global;
use std::marker::Model;

/// A text: any bytes. Contracts see it as its bytes.
#[derive(Drop)]
pub struct Text {
    items: Vec<u8>,
}

impl Model for Text {
    ghost use Rattle.std.specs.Prelude.{List, ℕ};

    ghost Value = { List ℕ };

    ghost view = { λ t. t.items.items };
}

impl Text {
    /// A text of these bytes.
    pub fn of(alloc: Global, bytes: &[u8]) -> Result<Text, Memory>
        ensures { IfOk result (λ made. made ≡ bytes.now) }
    {
        Ok(Text {
            items: Vec::from_slice(alloc, bytes)?,
        })
    }

    /// The bytes that the vector holds. It takes no memory.
    pub fn from_vec(items: Vec<u8>) -> Text
        ensures { result ≡ items.items }
    {
        Text { items }
    }

    pub fn bytes(&self) -> &[u8]
        ensures { result.now ≡ self.now }
    {
        self.items.as_slice()
    }

    /// How many bytes it has.
    pub fn len(&self) -> usize
        ensures { result ≡ length self.now }
    {
        self.items.len()
    }

    pub fn copy(&self) -> Result<Text, Memory>
        ensures { IfOk result (λ made. made ≡ self.now) }
    {
        Text::of(*self.items.allocator(), self.items.as_slice())
    }
}

impl Copied for Text {
    fn copy(&self) -> Result<Text, Memory> {
        Text::of(*self.items.allocator(), self.items.as_slice())
    }
}

impl Same for Text {
    fn same(&self, other: &Text) -> bool {
        self.items.as_slice() == other.items.as_slice()
    }
}
