// SELECT. Where an expression ends, `drop` is written: what would be let go without a word is proved variant by variant
// at each such place.
ghost use Rattle.std.specs.Prelude.{◌≡◌, ◌++◌, ◌∷◌, [], IfOk, OnOk, map};
ghost use Rattle.sql_grammar.specs.declared.symbol.Symbol.TheVariants as symbol;
ghost use Rattle.sql_grammar.specs.declared.token.Token.TheVariants as token;
ghost use Rattle.sql_grammar.specs.Readers.{one_at, after_at, maybe_at, then_at, expression_at};
ghost use Rattle.sql_grammar.specs.Statements.{key_of, conditions_of};
ghost use Rattle.sql_grammar.specs.Reading.{name_at, item_at, items_at, alias_at, source_at, join_at, joined_at, sources_at, ref_at, group_at, direction_at, key_at, order_at, filter_at, from_at, select_at};
ghost use Rattle.sql_precedence.specs.Results.{AnswersReading, SettlesReading};

use crate::changes::filter;
use crate::part::{commas, many};
use dl_base::{Expr, Item, Key, KeyBy, List, Memory, Name, Ref, Select, Stmt, TableRef};
use sql_grammar::{Symbol, Terminal};
use sql_precedence::{Refused, expect, expression, maybe_name, name, stands};
use std::alloc::Global;

// [AS name]
fn item_alias(terminals: &[Terminal], at: usize) -> Result<(Option<Name>, usize), Refused>
    ensures { AnswersReading result (maybe_at (token.Symbol symbol.As) name_at terminals.now at) }
{
    if stands(terminals, at, Symbol::As) {
        let (alias, at) = name(terminals, at + 1)?;
        Ok((Some(alias), at))
    } else {
        Ok((None, at))
    }
}

/// expr [AS name]
#[tactic(auto, unfolding(sql_grammar::specs::Reading::item_at))]
pub fn item(alloc: Global, terminals: &[Terminal], at: usize) -> Result<(Item, usize), Refused>
    ensures { AnswersReading result (item_at terminals.now at) }
{
    let (expr, at) = expression(alloc, terminals, at)?;
    match item_alias(terminals, at) {
        Ok((alias, at)) => Ok((Item { expr, alias }, at)),
        Err(refused) => {
            drop(expr);
            Err(refused)
        }
    }
}

// * | item {, item}
#[tactic(auto, unfolding(sql_grammar::specs::Reading::items_at))]
fn items(
    alloc: Global,
    terminals: &[Terminal],
    at: usize,
) -> Result<(Option<List<Item>>, usize), Refused>
    ensures { AnswersReading result (items_at terminals.now at) }
{
    if stands(terminals, at, Symbol::Star) {
        return Ok((None, at + 1));
    }
    let (items, at) = commas::<Item>(alloc, terminals, at)?;
    Ok((Some(items), at))
}

// [[AS] name]
#[tactic(auto, unfolding(sql_grammar::specs::Reading::alias_at))]
fn alias(terminals: &[Terminal], at: usize) -> Result<(Option<Name>, usize), Refused>
    ensures { AnswersReading result (alias_at terminals.now at) }
{
    if stands(terminals, at, Symbol::As) {
        let (alias, at) = name(terminals, at + 1)?;
        Ok((Some(alias), at))
    } else {
        maybe_name(terminals, at)
    }
}

// name [[AS] name]
#[tactic(auto, unfolding(sql_grammar::specs::Reading::source_at))]
fn source(terminals: &[Terminal], at: usize) -> Result<(TableRef, usize), Refused>
    ensures { AnswersReading result (source_at terminals.now at) }
{
    let (table, at) = name(terminals, at)?;
    let (alias, at) = alias(terminals, at)?;
    Ok((TableRef { table, alias }, at))
}

// ON expr
fn condition(alloc: Global, terminals: &[Terminal], at: usize) -> Result<(Expr, usize), Refused>
    ensures { AnswersReading result (after_at (token.Symbol symbol.On) expression_at terminals.now at) }
{
    let at = expect(terminals, at, Symbol::On)?;
    expression(alloc, terminals, at)
}

// source ON expr
#[tactic(auto, unfolding(sql_grammar::specs::Reading::join_at))]
fn join(
    alloc: Global,
    terminals: &[Terminal],
    at: usize,
) -> Result<((TableRef, Option<Expr>), usize), Refused>
    ensures { AnswersReading result (join_at terminals.now at) }
{
    let (source, at) = source(terminals, at)?;
    match condition(alloc, terminals, at) {
        Ok((condition, at)) => Ok(((source, Some(condition)), at)),
        Err(refused) => {
            drop(source);
            Err(refused)
        }
    }
}

/// , source | [INNER] JOIN source ON expr
#[tactic(auto, unfolding(sql_grammar::specs::Reading::joined_at))]
pub fn joined(
    alloc: Global,
    terminals: &[Terminal],
    at: usize,
) -> Result<((TableRef, Option<Expr>), usize), Refused>
    ensures { AnswersReading result (joined_at terminals.now at) }
{
    if stands(terminals, at, Symbol::Comma) {
        let (source, at) = source(terminals, at + 1)?;
        Ok(((source, None), at))
    } else if stands(terminals, at, Symbol::Join) {
        join(alloc, terminals, at + 1)
    } else {
        let at = expect(terminals, at, Symbol::Inner)?;
        let at = expect(terminals, at, Symbol::Join)?;
        join(alloc, terminals, at)
    }
}

// source {, source | [INNER] JOIN source ON expr}
#[tactic(auto, unfolding(sql_grammar::specs::Reading::sources_at))]
fn sources(
    alloc: Global,
    terminals: &[Terminal],
    at: usize,
) -> Result<((TableRef, List<(TableRef, Option<Expr>)>), usize), Refused>
    ensures { AnswersReading result (sources_at terminals.now at) }
{
    let (first, at) = source(terminals, at)?;
    match many::<(TableRef, Option<Expr>)>(alloc, terminals, at) {
        Ok((more, at)) => Ok(((first, more), at)),
        Err(refused) => {
            drop(first);
            Err(refused)
        }
    }
}

/// name [. name]
#[tactic(auto, unfolding(sql_grammar::specs::Reading::ref_at))]
pub fn reference(terminals: &[Terminal], at: usize) -> Result<(Ref, usize), Refused>
    ensures { AnswersReading result (ref_at terminals.now at) }
{
    let (first, at) = name(terminals, at)?;
    if stands(terminals, at, Symbol::Dot) {
        let (column, at) = name(terminals, at + 1)?;
        Ok((
            Ref {
                table: Some(first),
                column,
            },
            at,
        ))
    } else {
        Ok((
            Ref {
                table: None,
                column: first,
            },
            at,
        ))
    }
}

// [GROUP BY ref {, ref}]
#[tactic(auto, unfolding(sql_grammar::specs::Reading::group_at))]
fn group(alloc: Global, terminals: &[Terminal], at: usize) -> Result<(List<Ref>, usize), Refused>
    ensures { AnswersReading result (group_at terminals.now at) }
{
    if !stands(terminals, at, Symbol::Group) {
        return Ok((List::empty(alloc), at));
    }
    let at = expect(terminals, at + 1, Symbol::By)?;
    commas::<Ref>(alloc, terminals, at)
}

// name | number
fn key_by(terminals: &[Terminal], at: usize) -> Result<(KeyBy, usize), Refused>
    ensures { AnswersReading result (one_at key_of terminals.now at) }
{
    match terminals.get(at) {
        Some(Terminal::Word(name)) => Ok((KeyBy::Name(name.copy()?), at + 1)),
        Some(Terminal::Number(n)) => Ok((KeyBy::Place(*n), at + 1)),
        _ => Err(Refused::Syntax(at)),
    }
}

// [ASC | DESC]
#[tactic(auto, unfolding(sql_grammar::specs::Reading::direction_at))]
fn direction(terminals: &[Terminal], at: usize) -> Result<(bool, usize), Refused>
    ensures { SettlesReading result (direction_at terminals.now at) }
{
    if stands(terminals, at, Symbol::Asc) {
        Ok((false, at + 1))
    } else if stands(terminals, at, Symbol::Desc) {
        Ok((true, at + 1))
    } else {
        Ok((false, at))
    }
}

/// (name | number) [ASC | DESC]
#[tactic(auto, unfolding(sql_grammar::specs::Reading::key_at))]
pub fn key(terminals: &[Terminal], at: usize) -> Result<(Key, usize), Refused>
    ensures { AnswersReading result (key_at terminals.now at) }
{
    let (by, at) = key_by(terminals, at)?;
    let (descending, at) = direction(terminals, at)?;
    Ok((Key { by, descending }, at))
}

// [ORDER BY key {, key}]
#[tactic(auto, unfolding(sql_grammar::specs::Reading::order_at))]
fn order(alloc: Global, terminals: &[Terminal], at: usize) -> Result<(List<Key>, usize), Refused>
    ensures { AnswersReading result (order_at terminals.now at) }
{
    if !stands(terminals, at, Symbol::Order) {
        return Ok((List::empty(alloc), at));
    }
    let at = expect(terminals, at + 1, Symbol::By)?;
    commas::<Key>(alloc, terminals, at)
}

// [GROUP BY ref {, ref}] [ORDER BY key {, key}]
fn grouping(
    alloc: Global,
    terminals: &[Terminal],
    at: usize,
) -> Result<((List<Ref>, List<Key>), usize), Refused>
    ensures { AnswersReading result (then_at group_at order_at terminals.now at) }
{
    let (group, at) = group(alloc, terminals, at)?;
    match order(alloc, terminals, at) {
        Ok((order, at)) => Ok(((group, order), at)),
        Err(refused) => {
            drop(group);
            Err(refused)
        }
    }
}

// A source, and its condition where it has one.
fn put_part(
    from: &mut List<TableRef>,
    conditions: &mut List<Expr>,
    part: (TableRef, Option<Expr>),
) -> Result<(), Memory>
    ensures from { OnOk result (from.new ≡ from.old ++ part.0 ∷ []) }
    ensures conditions { OnOk result (conditions.new ≡ conditions.old ++ conditions_of (part ∷ [])) }
{
    let (source, condition) = part;
    match condition {
        None => {
            from.push(source)?;
            Ok(())
        }
        Some(condition) => match from.push(source) {
            Ok(()) => {
                conditions.push(condition)?;
                Ok(())
            }
            Err((source, Memory)) => {
                drop(source);
                drop(condition);
                Err(Memory)
            }
        },
    }
}

// All of them, in order.
fn put_parts(
    from: &mut List<TableRef>,
    conditions: &mut List<Expr>,
    parts: List<(TableRef, Option<Expr>)>,
) -> Result<(), Memory>
    ensures from { OnOk result (from.new ≡ from.old ++ map (λ x. x.0) parts) }
    ensures conditions { OnOk result (conditions.new ≡ conditions.old ++ conditions_of parts) }
{
    'parts: for part in parts.into_vec() {
        put_part(from, conditions, part)?;
    }
    Ok(())
}

// The sources, and the conditions of those that have one.
fn parted(
    alloc: Global,
    first: TableRef,
    more: List<(TableRef, Option<Expr>)>,
) -> Result<(List<TableRef>, List<Expr>), Memory>
    ensures { IfOk result (λ r. (r.0 ≡ first ∷ map (λ x. x.0) more) × (r.1 ≡ conditions_of more)) }
{
    let mut from = List::empty(alloc);
    let mut conditions = List::empty(alloc);
    match from.push(first) {
        Ok(()) => match put_parts(&mut from, &mut conditions, more) {
            Ok(()) => Ok((from, conditions)),
            Err(Memory) => {
                drop(from);
                drop(conditions);
                Err(Memory)
            }
        },
        Err((first, Memory)) => {
            drop(first);
            drop(more);
            drop(from);
            drop(conditions);
            Err(Memory)
        }
    }
}

// FROM source {, source | [INNER] JOIN source ON expr}
fn from(
    alloc: Global,
    terminals: &[Terminal],
    at: usize,
) -> Result<((TableRef, List<(TableRef, Option<Expr>)>), usize), Refused>
    ensures { AnswersReading result (after_at (token.Symbol symbol.From) sources_at terminals.now at) }
{
    let at = expect(terminals, at, Symbol::From)?;
    sources(alloc, terminals, at)
}

// [WHERE expr] [GROUP BY ref {, ref}] [ORDER BY key {, key}]
fn filtered(
    alloc: Global,
    terminals: &[Terminal],
    at: usize,
) -> Result<((Option<Expr>, (List<Ref>, List<Key>)), usize), Refused>
    ensures { AnswersReading result (then_at filter_at (then_at group_at order_at) terminals.now at) }
{
    let (filter, at) = filter(alloc, terminals, at)?;
    match grouping(alloc, terminals, at) {
        Ok((grouped, at)) => Ok(((filter, grouped), at)),
        Err(refused) => {
            drop(filter);
            Err(refused)
        }
    }
}

/// (* | item {, item}) FROM sources [WHERE expr] [GROUP BY ..] [ORDER BY ..]
#[tactic(auto, unfolding(sql_grammar::specs::Reading::select_at, sql_grammar::specs::Reading::from_at))]
pub fn select(alloc: Global, terminals: &[Terminal], at: usize) -> Result<(Stmt, usize), Refused>
    ensures { AnswersReading result (select_at terminals.now at) }
{
    let (items, at) = items(alloc, terminals, at)?;
    let ((first, more), at) = match from(alloc, terminals, at) {
        Ok(read) => read,
        Err(refused) => {
            drop(items);
            return Err(refused);
        }
    };
    let (from, conditions) = match parted(alloc, first, more) {
        Ok(parted) => parted,
        Err(Memory) => {
            drop(items);
            return Err(Refused::Memory);
        }
    };
    match filtered(alloc, terminals, at) {
        Ok(((filter, (group, order)), at)) => {
            let select = Select {
                items,
                from,
                conditions,
                filter,
                group,
                order,
            };
            Ok((Stmt::Select(select), at))
        }
        Err(refused) => {
            drop(items);
            drop(from);
            drop(conditions);
            Err(refused)
        }
    }
}
