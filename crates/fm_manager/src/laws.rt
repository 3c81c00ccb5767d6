// How the calls of the manager's owners make those of the manager. The function does nothing: it carries laws.
ghost use Rattle.std.specs.Prelude.{◌≡◌, ◌++◌, [], List, Option, Some, None};
ghost use Rattle.dl_areas.specs.Lists.{Write};
ghost use Rattle.dl_areas.specs.Writing.{DoesAlone, EndsAlone};
ghost use Rattle.dl_base.specs.declared.fault.AppendFault.{AppendFault};
ghost use Rattle.dl_base.specs.declared.fault.StepFault.{StepFault};
ghost use Rattle.fm_archive.specs.Stock.{Stock};
ghost use Rattle.fm_archive.specs.Stock as copies_area;
ghost use Rattle.fm_branch.specs.Linked.{Linked};
ghost use Rattle.fm_branch.specs.Linked as links_area;
ghost use Rattle.fs_files.specs.Store.{Catalog};
ghost use Rattle.fs_files.specs.Store as files_area;
ghost use Rattle.fm_manager.specs.Managed.{Managed, Manages, ManagesStep};

use dl_areas::{calls_follow_one_another, journals_in_their_places};
use dl_base::Bench;

/// A call of one owner is one of the manager; calls of the manager follow one another; and one that does nothing writes nothing.
pub fn calls_of_the_manager<B: Bench>()
    ensures links { (m : Managed) (l : Linked) (ws : List Write) (fault : Option AppendFault) (o n : B) → DoesAlone (links_area.extent m.links) (links_area.extent l) ws fault (B.outside o) (B.outside n)
        → Manages m (record m { links = l }) ws fault (B.outside o) (B.outside n) }
    ensures files { (m : Managed) (f : Catalog) (ws : List Write) (fault : Option AppendFault) (o n : B) → DoesAlone (files_area.extent m.files) (files_area.extent f) ws fault (B.outside o) (B.outside n)
        → Manages m (record m { files = f }) ws fault (B.outside o) (B.outside n) }
    ensures archive { (m : Managed) (a : Stock) (ws : List Write) (fault : Option AppendFault) (o n : B) → DoesAlone (copies_area.extent m.archive) (copies_area.extent a) ws fault (B.outside o) (B.outside n)
        → Manages m (record m { archive = a }) ws fault (B.outside o) (B.outside n) }
    ensures links_step { (m : Managed) (l : Linked) (ws : List Write) (fault : Option StepFault) (o n : B) → EndsAlone (links_area.extent m.links) (links_area.extent l) ws fault (B.outside o) (B.outside n)
        → ManagesStep m (record m { links = l }) ws fault (B.outside o) (B.outside n) }
    ensures files_step { (m : Managed) (f : Catalog) (ws : List Write) (fault : Option StepFault) (o n : B) → EndsAlone (files_area.extent m.files) (files_area.extent f) ws fault (B.outside o) (B.outside n)
        → ManagesStep m (record m { files = f }) ws fault (B.outside o) (B.outside n) }
    ensures none { (m : Managed) (o : B) → Manages m m [] None (B.outside o) (B.outside o) }
    ensures then { (m k n : Managed) (ws vs : List Write) (fault : Option AppendFault) (o p e : B) → Manages m k ws None (B.outside o) (B.outside p) → Manages k n vs fault (B.outside p) (B.outside e)
        → Manages m n (ws ++ vs) fault (B.outside o) (B.outside e) }
    ensures stop { (m n : Managed) (ws vs : List Write) (fault : AppendFault) (o e : B) → Manages m n ws (Some fault) (B.outside o) (B.outside e) → Manages m n (ws ++ vs) (Some fault) (B.outside o) (B.outside e) }
{
    calls_follow_one_another::<B>();
    journals_in_their_places();
}
