// What is told of the steps of actors that run side by side.
ghost use Rattle.std.specs.Prelude.{◌≡◌, IfOk};
ghost use Rattle.meaning_script.specs.Printed as meant;

use crate::words::{put_with, put_with_number};
use dl_base::{List, Memory, Step, Text};
use std::alloc::Global;

/// What is told of step `index` of a history, from 1, which an actor (the name of a session, `@` and the name of a user, or `-`)
/// does for line `line`, from 1: `# index ACTOR line KIND` and a newline.
#[tactic(auto, unfolding(meaning_script::specs::Printed::history_text))]
pub fn history_text(
    alloc: Global,
    index: u64,
    actor: &[u8],
    line: u64,
    step: &Step,
) -> Result<Text, Memory>
    ensures { IfOk result (λ text. text ≡ meant.history_text index actor.now line step.now) }
{
    let mut text = List::empty(alloc);
    put_with_number(&mut text, b"# ", index)?;
    put_with(&mut text, b" ", actor)?;
    put_with_number(&mut text, b" ", line)?;
    put_with(&mut text, b" ", step_word(step))?;
    text.extend(b"\n")?;
    Ok(Text::from_vec(text.into_vec()))
}

fn step_word(step: &Step) -> &'static [u8]
    ensures { result.now ≡ meant.step_word step.now }
{
    match step {
        Step::Begin(_) => b"begin",
        Step::Statement(_, _) => b"statement",
        Step::Prepare(_) => b"prepare",
        Step::Decide(_) => b"decide",
        Step::Finish(_) => b"finish",
        Step::Rollback(_) => b"rollback",
        Step::File(_) => b"file",
        Step::Archive(_) => b"archive",
        Step::Backup => b"backup",
        Step::Restore(_) => b"restore",
        Step::Tick(_) => b"tick",
        Step::CrashManager => b"crash",
        Step::CrashDatabase => b"crash",
        Step::Resolve => b"resolve",
    }
}
