// The script, read whole.
ghost use Rattle.std.specs.Prelude.{◌≡◌, ◌≢◌, ◌+◌, ◌≤◌, ℕ, List, [], length, Some, Ok, Err, IfOk, OnOk};
ghost use Rattle.dl_base.specs.Limits.{most_script_bytes};
ghost use Rattle.dl_base.specs.Sources.{RoseFrom};
ghost use Rattle.datalinks.specs.Script.{IsWhole, IsTooLong, TookMore};

use dl_base::limits::MOST_SCRIPT_BYTES;
use dl_base::{Failed, Source};
use std::alloc::{AllocError, Global};

/// How many bytes a script may have.
const MOST: usize = MOST_SCRIPT_BYTES;

/// How many bytes are asked for at a time.
const CHUNK: usize = 8_192;

/// Why a script was not read.
#[derive(Clone, Copy)]
pub enum ScriptFault {
    Source,
    /// How many bytes were taken.
    TooLong(u64),
    Memory,
}

impl From<Failed> for ScriptFault {
    ghost use Rattle.std.specs.Prelude.{◌≡◌};
    ghost use Rattle.datalinks.specs.declared.script.ScriptFault.TheVariants.{Source};

    ghost from_gives = { λ _ e. e ≡ Source };

    fn from(_: Failed) -> ScriptFault {
        ScriptFault::Source
    }
}

impl From<AllocError> for ScriptFault {
    ghost use Rattle.std.specs.Prelude.{◌≡◌};
    ghost use Rattle.datalinks.specs.declared.script.ScriptFault.TheVariants.{Memory};

    ghost from_gives = { λ _ e. e ≡ Memory };

    fn from(_: AllocError) -> ScriptFault {
        ScriptFault::Memory
    }
}

/// Reads a source to its end, but no more than one byte past what a script may have.
pub fn read_script<S: Source>(alloc: Global, source: &mut S) -> Result<Vec<u8>, ScriptFault>
    ensures whole { IfOk result (λ script. IsWhole script.items (S.rest source.old) (S.rest source.new)) }
    ensures short { IfOk result (λ script. length script.items ≤ most_script_bytes) }
    ensures too_long { (n : ℕ) → result ≡ Err (ScriptFault.TooLong n) → IsTooLong n (S.rest source.old) (S.rest source.new) }
    ensures later { S.faults source.old ≤ S.faults source.new }
    ensures cause { result ≡ Err ScriptFault.Source → RoseFrom (S.faults source.old) (S.faults source.new) }
    ensures clean { OnOk result (S.faults source.new ≡ S.faults source.old) }
{
    let mut script = Vec::new(alloc);
    while script.len() <= MOST {
        if take_more(source, &mut script)? == 0 {
            return Ok(script);
        }
    }
    Err(ScriptFault::TooLong(script.len() as u64))
}

// Takes more bytes of a script, and says how many; none at its end.
fn take_more<S: Source>(source: &mut S, script: &mut Vec<u8>) -> Result<usize, ScriptFault>
    requires { length script.old.items ≤ most_script_bytes }
    ensures more { IfOk result (λ n. TookMore n script.old.items script.new.items (S.rest source.old) (S.rest source.new)) }
    ensures end { result ≡ Ok 0 → (left : List ℕ) → S.rest source.old ≡ Some left → left ≡ [] }
    ensures bound { IfOk result (λ n. length script.old.items + n ≤ most_script_bytes + 1) }
    ensures later { S.faults source.old ≤ S.faults source.new }
    ensures cause { result ≡ Err ScriptFault.Source → RoseFrom (S.faults source.old) (S.faults source.new) }
    ensures clean { OnOk result (S.faults source.new ≡ S.faults source.old) }
    ensures no_other { (n : ℕ) → result ≢ Err (ScriptFault.TooLong n) }
{
    let mut chunk = [0u8; CHUNK];
    let room = CHUNK.min(MOST + 1 - script.len());
    let count = source.take(&mut chunk[..room])?;
    script.extend_from_slice(&chunk[..count])?;
    Ok(count)
}
