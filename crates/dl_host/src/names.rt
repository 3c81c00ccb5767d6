// The names of the areas' files.
ghost use Rattle.std.specs.Prelude.{◌≡◌, ◌≢◌};
ghost use Rattle.dl_host.specs.Hosts.{name_of};

use dl_base::Area;

/// The name of an area's file in the folder.
pub fn file_name(area: Area) -> &'static str
    ensures { result.now ≡ name_of area }
{
    match area {
        Area::Rows => "datalinks.rows",
        Area::Links => "datalinks.links",
        Area::Files => "datalinks.files",
        Area::Archive => "datalinks.archive",
        Area::Backups => "datalinks.backups",
    }
}

/// Two areas never share a file.
pub fn names_differ(_a: Area, _b: Area)
    requires { _a ≢ _b }
    ensures { name_of _a ≢ name_of _b }
{}
