ghost use Rattle.std.specs.Prelude.{◌≡◌, IfOk};
ghost use Rattle.std.specs.List.{list_all};
ghost use Rattle.std.specs.Option.{option_copied};
ghost use Rattle.dl_base.specs.Name.{IsName, name_test, is_name_byte, is_letter};

use crate::limits::MOST_NAME_BYTES;
use crate::{Copied, Memory, Same};
use std::alloc::Global;
use std::marker::Model;

/// Whether the bytes are a name: a letter, then letters, digits and underscores, at most 64 in all.
/// It takes no memory.
#[tactic(auto, unfolding(crate::specs::Name::name_test))]
pub fn is_name(bytes: &[u8]) -> bool
    ensures { result ≡ name_test bytes.now }
{
    if bytes.len() > MOST_NAME_BYTES || !is_letter(bytes.first()) {
        return false;
    }
    are_name_bytes(bytes)
}

fn are_name_bytes(bytes: &[u8]) -> bool
    ensures { result ≡ list_all is_name_byte bytes.now }
{
    bytes.iter().all(|b| b.is_ascii_alphabetic() || b.is_ascii_digit() || *b == b'_')
}

fn is_letter(byte: Option<&u8>) -> bool
    ensures { result ≡ is_letter (option_copied byte.entry) }
{
    match byte {
        Some(b) => b.is_ascii_alphabetic(),
        None => false,
    }
}

/// A name, as `is_name` takes it. Contracts see it as its bytes.
#[derive(Drop)]
pub struct Name {
    items: Vec<u8>,
}

impl Model for Name {
    ghost use Rattle.std.specs.Prelude.{List, ℕ};
    ghost use Rattle.dl_base.specs.Name.{IsName};

    ghost Value = { List ℕ };

    ghost view = { λ n. n.items.items };

    ghost invariant = { λ n. IsName n.items.items };
}

impl Name {
    /// A name of these bytes.
    pub fn of(alloc: Global, bytes: &[u8]) -> Result<Name, Memory>
        requires { IsName bytes.now }
        ensures { IfOk result (λ made. made ≡ bytes.now) }
    {
        Ok(Name {
            items: Vec::from_slice(alloc, bytes)?,
        })
    }

    pub fn bytes(&self) -> &[u8]
        ensures value { result.now ≡ self.now }
        ensures name { IsName self.now }
    {
        self.items.as_slice()
    }

    pub fn copy(&self) -> Result<Name, Memory>
        ensures { IfOk result (λ made. made ≡ self.now) }
    {
        Name::of(*self.items.allocator(), self.items.as_slice())
    }
}

impl Copied for Name {
    fn copy(&self) -> Result<Name, Memory> {
        Name::of(*self.items.allocator(), self.items.as_slice())
    }
}

impl Same for Name {
    fn same(&self, other: &Name) -> bool {
        self.items.as_slice() == other.items.as_slice()
    }
}
