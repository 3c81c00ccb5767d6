ghost use Rattle.std.specs.Prelude.{◌≡◌, IfOk};
ghost use Rattle.std.specs.List.{list_all};
ghost use Rattle.std.specs.Option.{option_copied};
ghost use Rattle.dl_base.specs.Path.{IsPath, path_test, is_path_byte, is_slash};

use crate::limits::MOST_PATH_BYTES;
use crate::{Copied, Memory, Same};
use std::alloc::Global;
use std::marker::Model;

/// Whether the bytes are a path: a slash, then visible ASCII, at most 1,024 bytes in all, the last of them no slash.
/// It takes no memory.
#[tactic(auto, unfolding(crate::specs::Path::path_test))]
pub fn is_path(bytes: &[u8]) -> bool
    ensures { result ≡ path_test bytes.now }
{
    if bytes.len() > MOST_PATH_BYTES || !is_slash(bytes.first()) || is_slash(bytes.last()) {
        return false;
    }
    are_path_bytes(bytes)
}

fn are_path_bytes(bytes: &[u8]) -> bool
    ensures { result ≡ list_all is_path_byte bytes.now }
{
    bytes.iter().all(|b| 33 <= *b && *b <= 126)
}

fn is_slash(byte: Option<&u8>) -> bool
    ensures { result ≡ is_slash (option_copied byte.entry) }
{
    match byte {
        Some(b) => *b == b'/',
        None => false,
    }
}

/// A path of a file, as `is_path` takes it. Contracts see it as its bytes.
#[derive(Drop)]
pub struct Path {
    items: Vec<u8>,
}

impl Model for Path {
    ghost use Rattle.std.specs.Prelude.{List, ℕ};
    ghost use Rattle.dl_base.specs.Path.{IsPath};

    ghost Value = { List ℕ };

    ghost view = { λ p. p.items.items };

    ghost invariant = { λ p. IsPath p.items.items };
}

impl Path {
    /// A path of these bytes.
    pub fn of(alloc: Global, bytes: &[u8]) -> Result<Path, Memory>
        requires { IsPath bytes.now }
        ensures { IfOk result (λ made. made ≡ bytes.now) }
    {
        Ok(Path {
            items: Vec::from_slice(alloc, bytes)?,
        })
    }

    pub fn bytes(&self) -> &[u8]
        ensures value { result.now ≡ self.now }
        ensures path { IsPath self.now }
    {
        self.items.as_slice()
    }

    pub fn copy(&self) -> Result<Path, Memory>
        ensures { IfOk result (λ made. made ≡ self.now) }
    {
        Path::of(*self.items.allocator(), self.items.as_slice())
    }
}

impl Copied for Path {
    fn copy(&self) -> Result<Path, Memory> {
        Path::of(*self.items.allocator(), self.items.as_slice())
    }
}

impl Same for Path {
    fn same(&self, other: &Path) -> bool {
        self.items.as_slice() == other.items.as_slice()
    }
}
