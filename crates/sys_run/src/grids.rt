// What `$NAME` stands for.
ghost use Rattle.std.specs.Prelude.{◌≡◌, OnErr, OnOk};
ghost use Rattle.std.specs.FinMap as maps;
ghost use Rattle.std.specs.Option.{option_copied};
ghost use Rattle.std.specs.Ordering.{nat_cmp};
ghost use Rattle.meaning_run.specs.Running.{with_text};

use dl_base::{Memory, Text};
use std::alloc::Global;
use std::collections::BTreeMap;
use std::marker::Model;

/// What `$NAME` stands for, by the number of its session: the text of the first cell of the first row of the last grid that the session
/// was answered. A session whose last grid has no such text has nothing.
#[derive(Drop)]
pub struct Grids {
    entries: BTreeMap<u32, Text>,
}

impl Model for Grids {
    ghost use Rattle.std.specs.Coded.{coded_list, coded_ℕ};
    ghost use Rattle.std.specs.FinMap as maps;
    ghost use Rattle.meaning_run.specs.Running.{Grids};

    ghost Value = { Grids };

    ghost coded = { maps.code coded_ℕ (coded_list coded_ℕ) };

    ghost view = { λ g. maps.from_entries g.entries.entries };
}

impl Grids {
    /// Nothing yet. It takes no memory.
    pub(crate) fn none(alloc: Global) -> Grids
        ensures { result ≡ maps.empty }
    {
        Grids {
            entries: BTreeMap::new(alloc),
        }
    }

    /// What the name of a session stands for, if for something. It takes no memory.
    pub(crate) fn get(&self, session: u32) -> Option<&Text>
        ensures { option_copied result ≡ maps.get self.now session }
    {
        self.entries.get(&session)
    }

    /// Lets the name of a session stand for a text, or for nothing. The error is want of memory, which leaves all as it was.
    pub(crate) fn set(&mut self, session: u32, text: Option<Text>) -> Result<(), Memory>
        ensures ok { OnOk result (self.new ≡ with_text self.old session text) }
        ensures err { OnErr result (self.new ≡ self.old) }
    {
        match text {
            Some(text) => insert(&mut self.entries, session, text),
            None => {
                remove(&mut self.entries, session);
                Ok(())
            }
        }
    }
}

// One entry more, in place of that of the session.
fn insert(entries: &mut BTreeMap<u32, Text>, session: u32, text: Text) -> Result<(), Memory>
    ensures ok { OnOk result (maps.from_entries {R = nat_cmp} entries.new.entries ≡ maps.insert (maps.from_entries entries.old.entries) session text) }
    ensures err { OnErr result (entries.new.entries ≡ entries.old.entries) }
{
    entries.insert(session, text)?;
    Ok(())
}

// The entries without that of a session.
fn remove(entries: &mut BTreeMap<u32, Text>, session: u32)
    ensures { maps.from_entries {R = nat_cmp} entries.new.entries ≡ maps.remove (maps.from_entries entries.old.entries) session }
{
    entries.remove(&session);
}
