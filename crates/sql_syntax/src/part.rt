// Parts of a statement that stand in lists.
ghost use Rattle.std.specs.Prelude.{◌≡◌, Bool, false, Option, None, slice_get};
ghost use Rattle.std.proofs.Common.{refl};
ghost use Rattle.sql_grammar.specs.declared.terminal.Terminal.{Terminal};
ghost use Rattle.sql_grammar.specs.Readers.{Reader, Rises, Climbs, listed_at, many_at, expression_at};
ghost use Rattle.sql_grammar.specs.Reading.{name_at, rule_at, begins_rule, column_at, tuple_at, assigned_at, item_at, joined_at, begins_joined, ref_at, key_at};
ghost use Rattle.sql_grammar.proofs.Columns.{name_rises, rule_climbs, column_rises};
ghost use Rattle.sql_grammar.proofs.Statements.{expression_rises, tuple_rises, assigned_rises, item_rises, joined_climbs, ref_rises, key_rises};
ghost use Rattle.sql_precedence.specs.Results.{AnswersReading};

use crate::changes::{assigned, tuple};
use crate::columns::{column, rule};
use crate::query::{item, joined, key, reference};
use dl_base::{ColumnDef, ColumnRule, Expr, Item, Key, List, Name, Ref, TableRef};
use sql_grammar::{Symbol, Terminal};
use sql_precedence::{Refused, expression, name, stands};
use std::alloc::Global;

/// What stands in lists with commas between.
pub trait Part: Drop {
    ghost reader: { Reader Self };

    /// The part at the place, and the place behind it.
    fn read(alloc: Global, terminals: &[Terminal], at: usize) -> Result<(Self, usize), Refused>
        ensures { AnswersReading result (reader terminals.now at) };

    ghost rises: { Rises reader };
}

/// What is repeated as long as the next terminal begins one.
pub trait Repeated: Drop {
    ghost reader: { Reader Self };

    ghost begins: { Option Terminal → Bool };

    /// Whether one begins at the place.
    fn begins(terminals: &[Terminal], at: usize) -> bool
        ensures { result ≡ begins (slice_get terminals.now at) };

    /// The one at the place, and the place behind it.
    fn read(alloc: Global, terminals: &[Terminal], at: usize) -> Result<(Self, usize), Refused>
        ensures { AnswersReading result (reader terminals.now at) };

    ghost climbs: { Climbs begins reader };

    ghost nothing: { begins None ≡ false };
}

/// One part or more, with commas between them.
pub fn commas<T: Part>(
    alloc: Global,
    terminals: &[Terminal],
    from: usize,
) -> Result<(List<T>, usize), Refused>
    ensures { AnswersReading result (listed_at T.reader terminals.now from) }
{
    let mut list = List::empty(alloc);
    let (first, next) = match T::read(alloc, terminals, from) {
        Ok(read) => read,
        Err(refused) => return Err(refused),
    };
    list.push(first)?;
    let mut at = next;
    'commas: while stands(terminals, at, Symbol::Comma) {
        let (part, next) = match T::read(alloc, terminals, at + 1) {
            Ok(read) => read,
            Err(refused) => return Err(refused),
        };
        list.push(part)?;
        at = next;
    }
    Ok((list, at))
}

/// As many as there are.
pub fn many<T: Repeated>(
    alloc: Global,
    terminals: &[Terminal],
    from: usize,
) -> Result<(List<T>, usize), Refused>
    ensures { AnswersReading result (many_at T.begins T.reader terminals.now from) }
{
    let mut list = List::empty(alloc);
    let mut at = from;
    'parts: while T::begins(terminals, at) {
        let (part, next) = match T::read(alloc, terminals, at) {
            Ok(read) => read,
            Err(refused) => return Err(refused),
        };
        list.push(part)?;
        at = next;
    }
    Ok((list, at))
}

impl Part for Name {
    ghost reader = { name_at };

    fn read(_alloc: Global, terminals: &[Terminal], at: usize) -> Result<(Name, usize), Refused> {
        name(terminals, at)
    }

    ghost rises = { name_rises };
}

impl Part for Expr {
    ghost reader = { expression_at };

    fn read(alloc: Global, terminals: &[Terminal], at: usize) -> Result<(Expr, usize), Refused> {
        expression(alloc, terminals, at)
    }

    ghost rises = { expression_rises };
}

impl Part for ColumnDef {
    ghost reader = { column_at };

    fn read(
        alloc: Global,
        terminals: &[Terminal],
        at: usize,
    ) -> Result<(ColumnDef, usize), Refused> {
        column(alloc, terminals, at)
    }

    ghost rises = { column_rises };
}

impl Part for List<Expr> {
    ghost reader = { tuple_at };

    fn read(
        alloc: Global,
        terminals: &[Terminal],
        at: usize,
    ) -> Result<(List<Expr>, usize), Refused> {
        tuple(alloc, terminals, at)
    }

    ghost rises = { tuple_rises };
}

impl Part for (Name, Expr) {
    ghost reader = { assigned_at };

    fn read(
        alloc: Global,
        terminals: &[Terminal],
        at: usize,
    ) -> Result<((Name, Expr), usize), Refused> {
        assigned(alloc, terminals, at)
    }

    ghost rises = { assigned_rises };
}

impl Part for Item {
    ghost reader = { item_at };

    fn read(alloc: Global, terminals: &[Terminal], at: usize) -> Result<(Item, usize), Refused> {
        item(alloc, terminals, at)
    }

    ghost rises = { item_rises };
}

impl Part for Ref {
    ghost reader = { ref_at };

    fn read(_alloc: Global, terminals: &[Terminal], at: usize) -> Result<(Ref, usize), Refused> {
        reference(terminals, at)
    }

    ghost rises = { ref_rises };
}

impl Part for Key {
    ghost reader = { key_at };

    fn read(_alloc: Global, terminals: &[Terminal], at: usize) -> Result<(Key, usize), Refused> {
        key(terminals, at)
    }

    ghost rises = { key_rises };
}

impl Repeated for ColumnRule {
    ghost reader = { rule_at };

    ghost begins = { begins_rule };

    fn begins(terminals: &[Terminal], at: usize) -> bool {
        stands(terminals, at, Symbol::Not) || stands(terminals, at, Symbol::Primary)
    }

    fn read(
        _alloc: Global,
        terminals: &[Terminal],
        at: usize,
    ) -> Result<(ColumnRule, usize), Refused> {
        rule(terminals, at)
    }

    ghost climbs = { rule_climbs };

    ghost nothing = { refl };
}

impl Repeated for (TableRef, Option<Expr>) {
    ghost reader = { joined_at };

    ghost begins = { begins_joined };

    fn begins(terminals: &[Terminal], at: usize) -> bool {
        stands(terminals, at, Symbol::Comma)
            || stands(terminals, at, Symbol::Join)
            || stands(terminals, at, Symbol::Inner)
    }

    fn read(
        alloc: Global,
        terminals: &[Terminal],
        at: usize,
    ) -> Result<((TableRef, Option<Expr>), usize), Refused> {
        joined(alloc, terminals, at)
    }

    ghost climbs = { joined_climbs };

    ghost nothing = { refl };
}
