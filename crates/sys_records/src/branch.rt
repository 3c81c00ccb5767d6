// The branch of a transaction or of a restore, where it gives or takes a link.
ghost use Rattle.std.specs.Prelude.{◌≡◌, ◌≢◌, Err, IfOk, OnErr, OnOk, Some, is_some, map, true};
ghost use Rattle.std.specs.Result.{result_err};
ghost use Rattle.dl_areas.specs.Lists.{AreReady};
ghost use Rattle.dl_areas.specs.Writing.{Ends};
ghost use Rattle.fm_manager.specs.Managed.{AreSpelled, as_writes};
ghost use Rattle.meaning_areas.specs.Lists.{folds_on};
ghost use Rattle.meaning_system.specs.State.{has_links, is_empty};
ghost use Rattle.meaning_system.specs.Writes.{prepared, taken_by};
ghost use Rattle.sys_owners.specs.Owned.{folds_in, journals_of};
ghost use Rattle.sys_records.specs.Restoring.{moving};

use dl_areas::calls_follow_one_another;
use dl_base::{Bench, Copied, LinkRow, List, Memory, StepFault};
use dl_codec::Taken;
use sys_owners::Owners;

/// Writes the Prepared of a number, where a link is given or taken; those that are taken with RECOVERY YES are to be filled, or none.
/// It takes its memory before it writes. The errors are `Full(Area)` where Links has no room for the record, and `Device`, behind which
/// the areas are to be opened again, and want of memory, also where the record would have a list of 2^32 items. It costs the links, and
/// a logarithm of the held ones for each take.
pub fn write_prepared<B: Bench>(
    owners: &mut Owners,
    bench: &mut B,
    tx: u64,
    gives: &List<LinkRow>,
    takes: &List<LinkRow>,
    fill: bool,
) -> Result<(), StepFault>
    requires ready { AreReady (journals_of owners.old) (B.outside bench.old) }
    requires taken { is_some (folds_on (Some (folds_in owners.old)) (prepared tx (moving gives.now takes.now fill))) ≡ true }
    ensures folds { OnOk result (folds_on (Some (folds_in owners.old)) (prepared tx (moving gives.now takes.now fill)) ≡ Some (folds_in owners.new)) }
    ensures same { OnOk result (owners.new ≡ record owners.old { manager = record owners.old.manager { links = owners.new.manager.links } }) }
    ensures err { OnErr result (owners.new ≡ owners.old) }
    ensures ends { Ends (journals_of owners.old) (journals_of owners.new) (as_writes (prepared tx (moving gives.now takes.now fill))) (result_err result) (B.outside bench.old) (B.outside bench.new) }
    ensures spelled { result ≢ Err StepFault.Memory → AreSpelled (prepared tx (moving gives.now takes.now fill)) }
{
    calls_follow_one_another::<B>();
    if !moves_links(gives, takes) {
        return Ok(());
    }
    let gives = gives.copy()?;
    let takes = takings(takes, fill)?;
    owners.manager.prepare(bench, tx, gives, takes)
}

// Whether a link is given or taken.
pub(crate) fn moves_links(gives: &List<LinkRow>, takes: &List<LinkRow>) -> bool
    ensures { result ≡ has_links (moving gives.now takes.now true) }
{
    !(is_empty(gives) && is_empty(takes))
}

fn is_empty(links: &List<LinkRow>) -> bool
    ensures { result ≡ is_empty links.now }
{
    links.len() == 0
}

// Takes as the record of a branch has them.
fn takings(takes: &List<LinkRow>, fill: bool) -> Result<List<Taken>, Memory>
    ensures { IfOk result (λ made. made ≡ map (taken_by fill) takes.now) }
{
    let mut made = List::empty(takes.allocator());
    for link in takes.copy()?.into_vec() {
        let fill = fill && link.options.recovery;
        made.push(Taken { link, fill })?;
    }
    Ok(made)
}
