// Who may ask something of the files.
ghost use Rattle.std.specs.Prelude.{◌≡◌, IfOk, true};
ghost use Rattle.meaning_script.specs.Lines.{is_user};

use dl_base::limits::MOST_ACTOR_NAME_BYTES;
use dl_base::{Memory, Name, is_name};
use std::alloc::Global;

/// Whether the bytes name a user.
#[tactic(auto, unfolding(meaning_script::specs::Lines::is_user))]
pub(crate) fn is_user(name: &[u8]) -> bool
    ensures { result ≡ is_user name.now }
{
    is_name(name) && name.len() <= MOST_ACTOR_NAME_BYTES && name != b"dlfm".as_slice()
}

/// The name of a user.
#[tactic(auto, unfolding(meaning_script::specs::Lines::is_user))]
pub(crate) fn user_name(alloc: Global, name: &[u8]) -> Result<Name, Memory>
    requires { is_user name.now ≡ true }
    ensures { IfOk result (λ made. made ≡ name.now) }
{
    Name::of(alloc, name)
}
