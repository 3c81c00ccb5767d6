// The tables that statements name.
ghost use Rattle.std.specs.Prelude.{◌≡◌, ◌∷◌, [], OnOk, bytes_eq};
ghost use Rattle.std.specs.List.{list_any};
ghost use Rattle.meaning_system.specs.Claims.{with_names};
ghost use Rattle.meaning_system.specs.Sql.{named_by};
ghost use Rattle.db_txn.specs.Naming.{names_of};

use dl_base::{List, Memory, Name, Stmt, TableRef};

/// Puts the tables that a statement names behind others, each that is not there yet.
pub(crate) fn put_names(names: &mut List<Name>, stmt: &Stmt) -> Result<(), Memory>
    ensures { OnOk result (names.new ≡ with_names names.old (named_by stmt.now)) }
{
    match stmt {
        Stmt::CreateTable(name, _) => put_name(names, name),
        Stmt::DropTable(name) => put_name(names, name),
        Stmt::Insert(name, _, _) => put_name(names, name),
        Stmt::Update(name, _, _) => put_name(names, name),
        Stmt::Delete(name, _) => put_name(names, name),
        Stmt::Select(query) => put_sources(names, query.from.as_slice()),
        Stmt::Begin | Stmt::Commit | Stmt::Rollback => Ok(()),
    }
}

// Puts the tables of some sources.
fn put_sources(names: &mut List<Name>, from: &[TableRef]) -> Result<(), Memory>
    ensures { OnOk result (names.new ≡ with_names names.old (names_of from.now)) }
{
    for source in from {
        put_name(names, &source.table)?;
    }
    Ok(())
}

// Puts a name, where it is not there yet.
fn put_name(names: &mut List<Name>, name: &Name) -> Result<(), Memory>
    ensures { OnOk result (names.new ≡ with_names names.old (name.now ∷ [])) }
{
    if is_among(names.as_slice(), name) {
        return Ok(());
    }
    names.push(name.copy()?)?;
    Ok(())
}

fn is_among(names: &[Name], name: &Name) -> bool
    ensures { result ≡ list_any (bytes_eq name.now) names.now }
{
    names.iter().any(|other| name.bytes() == other.bytes())
}
