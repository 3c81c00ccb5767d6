// CREATE TABLE and DROP TABLE.
ghost use Rattle.std.specs.Prelude.{◌≡◌, ◌≤◌, ◌^◌, IfOk, OnErr};
ghost use Rattle.sql_grammar.specs.Readers.{token_at};
ghost use Rattle.std.specs.List.{count_by};
ghost use Rattle.sql_grammar.specs.Statements.{is_not_null, is_key};
ghost use Rattle.sql_grammar.specs.Reading.{rule_at, integrity_at, read_at, write_at, yes_no_at, unlink_at, unlinking_at, recovery_at, writing_at, reading_at, choices_at, filed_at, control_at, datalink_at, kind_at, column_at, create_at, drop_at};
ghost use Rattle.sql_precedence.specs.Results.{AnswersReading, SettlesReading};

use crate::part::{commas, many};
use dl_base::{
    ColumnDef, ColumnRule, Integrity, KindDef, List, Memory, OnUnlink, ReadBy, Stmt, WriteBy,
};
use sql_grammar::{LinkWord, Symbol, Terminal};
use sql_precedence::{Refused, expect, expect_word, name, number, says, stands};
use std::alloc::Global;

// ALL | SELECTIVE | NONE
#[tactic(auto, unfolding(sql_grammar::specs::Reading::integrity_at, sql_grammar::specs::Readers::token_at))]
fn integrity(terminals: &[Terminal], at: usize) -> Result<(Integrity, usize), Refused>
    ensures { SettlesReading result (integrity_at terminals.now at) }
{
    if says(terminals, at, LinkWord::All) {
        Ok((Integrity::All, at + 1))
    } else if says(terminals, at, LinkWord::Selective) {
        Ok((Integrity::Selective, at + 1))
    } else {
        let at = expect_word(terminals, at, LinkWord::None)?;
        Ok((Integrity::Nothing, at))
    }
}

// FS | DB
#[tactic(auto, unfolding(sql_grammar::specs::Reading::read_at))]
fn read(terminals: &[Terminal], at: usize) -> Result<(ReadBy, usize), Refused>
    ensures { SettlesReading result (read_at terminals.now at) }
{
    if says(terminals, at, LinkWord::Fs) {
        Ok((ReadBy::Fs, at + 1))
    } else {
        let at = expect_word(terminals, at, LinkWord::Db)?;
        Ok((ReadBy::Db, at))
    }
}

// FS | BLOCKED | ADMIN
#[tactic(auto, unfolding(sql_grammar::specs::Reading::write_at))]
fn write(terminals: &[Terminal], at: usize) -> Result<(WriteBy, usize), Refused>
    ensures { SettlesReading result (write_at terminals.now at) }
{
    if says(terminals, at, LinkWord::Fs) {
        Ok((WriteBy::Fs, at + 1))
    } else if says(terminals, at, LinkWord::Blocked) {
        Ok((WriteBy::Blocked, at + 1))
    } else {
        let at = expect_word(terminals, at, LinkWord::Admin)?;
        Ok((WriteBy::Admin, at))
    }
}

// YES | NO
#[tactic(auto, unfolding(sql_grammar::specs::Reading::yes_no_at))]
fn yes_no(terminals: &[Terminal], at: usize) -> Result<(bool, usize), Refused>
    ensures { SettlesReading result (yes_no_at terminals.now at) }
{
    if says(terminals, at, LinkWord::Yes) {
        Ok((true, at + 1))
    } else {
        let at = expect_word(terminals, at, LinkWord::No)?;
        Ok((false, at))
    }
}

// RESTORE | DELETE | NONE
#[tactic(auto, unfolding(sql_grammar::specs::Reading::unlink_at))]
fn unlink(terminals: &[Terminal], at: usize) -> Result<(OnUnlink, usize), Refused>
    ensures { SettlesReading result (unlink_at terminals.now at) }
{
    if says(terminals, at, LinkWord::Restore) {
        Ok((OnUnlink::Restore, at + 1))
    } else if stands(terminals, at, Symbol::Delete) {
        Ok((OnUnlink::Delete, at + 1))
    } else {
        let at = expect_word(terminals, at, LinkWord::None)?;
        Ok((OnUnlink::Nothing, at))
    }
}

// [ON UNLINK (RESTORE | DELETE | NONE)]
#[tactic(auto, unfolding(sql_grammar::specs::Reading::unlinking_at))]
fn unlinking(terminals: &[Terminal], at: usize) -> Result<(OnUnlink, usize), Refused>
    ensures { SettlesReading result (unlinking_at terminals.now at) }
{
    if stands(terminals, at, Symbol::On) {
        let at = expect_word(terminals, at + 1, LinkWord::Unlink)?;
        unlink(terminals, at)
    } else {
        Ok((OnUnlink::Nothing, at))
    }
}

// RECOVERY (YES | NO) [ON UNLINK ..]
#[tactic(auto, unfolding(sql_grammar::specs::Reading::recovery_at))]
fn recovery(terminals: &[Terminal], at: usize) -> Result<((bool, OnUnlink), usize), Refused>
    ensures { SettlesReading result (recovery_at terminals.now at) }
{
    let at = expect_word(terminals, at, LinkWord::Recovery)?;
    let (recovers, at) = yes_no(terminals, at)?;
    let (unlink, at) = unlinking(terminals, at)?;
    Ok(((recovers, unlink), at))
}

// WRITE PERMISSION (FS | BLOCKED | ADMIN) RECOVERY ..
#[tactic(auto, unfolding(sql_grammar::specs::Reading::writing_at))]
fn writing(
    terminals: &[Terminal],
    at: usize,
) -> Result<((WriteBy, (bool, OnUnlink)), usize), Refused>
    ensures { SettlesReading result (writing_at terminals.now at) }
{
    let at = expect_word(terminals, at, LinkWord::Write)?;
    let at = expect_word(terminals, at, LinkWord::Permission)?;
    let (by, at) = write(terminals, at)?;
    let (rest, at) = recovery(terminals, at)?;
    Ok(((by, rest), at))
}

// READ PERMISSION (FS | DB) WRITE ..
#[tactic(auto, unfolding(sql_grammar::specs::Reading::reading_at))]
fn reading(
    terminals: &[Terminal],
    at: usize,
) -> Result<((ReadBy, (WriteBy, (bool, OnUnlink))), usize), Refused>
    ensures { SettlesReading result (reading_at terminals.now at) }
{
    let at = expect_word(terminals, at, LinkWord::Read)?;
    let at = expect_word(terminals, at, LinkWord::Permission)?;
    let (by, at) = read(terminals, at)?;
    let (rest, at) = writing(terminals, at)?;
    Ok(((by, rest), at))
}

// INTEGRITY (ALL | SELECTIVE | NONE) READ ..
#[tactic(auto, unfolding(sql_grammar::specs::Reading::choices_at))]
fn choices(terminals: &[Terminal], at: usize) -> Result<(KindDef, usize), Refused>
    ensures { SettlesReading result (choices_at terminals.now at) }
{
    let at = expect_word(terminals, at, LinkWord::Integrity)?;
    let (integrity, at) = integrity(terminals, at)?;
    let ((read, (write, (recovers, unlink))), at) = reading(terminals, at)?;
    Ok((
        KindDef::Chosen(integrity, read, write, recovers, unlink),
        at,
    ))
}

// MODE DB2OPTIONS | choices
#[tactic(auto, unfolding(sql_grammar::specs::Reading::filed_at))]
fn filed(terminals: &[Terminal], at: usize) -> Result<(KindDef, usize), Refused>
    ensures { SettlesReading result (filed_at terminals.now at) }
{
    if says(terminals, at, LinkWord::Mode) {
        let at = expect_word(terminals, at + 1, LinkWord::Db2options)?;
        Ok((KindDef::Db2, at))
    } else {
        choices(terminals, at)
    }
}

// [NO LINK CONTROL | FILE LINK CONTROL (MODE DB2OPTIONS | choices)]
#[tactic(auto, unfolding(sql_grammar::specs::Reading::control_at))]
fn control(terminals: &[Terminal], at: usize) -> Result<(KindDef, usize), Refused>
    ensures { SettlesReading result (control_at terminals.now at) }
{
    if says(terminals, at, LinkWord::No) {
        let at = expect_word(terminals, at + 1, LinkWord::Link)?;
        let at = expect_word(terminals, at, LinkWord::Control)?;
        Ok((KindDef::Free, at))
    } else if says(terminals, at, LinkWord::File) {
        let at = expect_word(terminals, at + 1, LinkWord::Link)?;
        let at = expect_word(terminals, at, LinkWord::Control)?;
        filed(terminals, at)
    } else {
        Ok((KindDef::Free, at))
    }
}

// [LINKTYPE URL] [control]
#[tactic(auto, unfolding(sql_grammar::specs::Reading::datalink_at))]
fn datalink(terminals: &[Terminal], at: usize) -> Result<(KindDef, usize), Refused>
    ensures { SettlesReading result (datalink_at terminals.now at) }
{
    if says(terminals, at, LinkWord::Linktype) {
        let at = expect_word(terminals, at + 1, LinkWord::Url)?;
        control(terminals, at)
    } else {
        control(terminals, at)
    }
}

// INTEGER | BIGINT | VARCHAR ( number ) | DATALINK ..
#[tactic(auto, unfolding(sql_grammar::specs::Reading::kind_at))]
fn kind(terminals: &[Terminal], at: usize) -> Result<(KindDef, usize), Refused>
    ensures { SettlesReading result (kind_at terminals.now at) }
{
    if stands(terminals, at, Symbol::Integer) {
        Ok((KindDef::Integer, at + 1))
    } else if stands(terminals, at, Symbol::Bigint) {
        Ok((KindDef::Integer, at + 1))
    } else if stands(terminals, at, Symbol::Varchar) {
        let at = expect(terminals, at + 1, Symbol::Open)?;
        let (length, at) = number(terminals, at)?;
        let at = expect(terminals, at, Symbol::Close)?;
        Ok((KindDef::Varchar(length), at))
    } else {
        let at = expect(terminals, at, Symbol::Datalink)?;
        datalink(terminals, at)
    }
}

// NOT NULL | PRIMARY KEY
#[tactic(auto, unfolding(sql_grammar::specs::Reading::rule_at))]
pub fn rule(terminals: &[Terminal], at: usize) -> Result<(ColumnRule, usize), Refused>
    ensures { SettlesReading result (rule_at terminals.now at) }
{
    if stands(terminals, at, Symbol::Not) {
        let at = expect(terminals, at + 1, Symbol::Null)?;
        Ok((ColumnRule::NotNull, at))
    } else {
        let at = expect(terminals, at, Symbol::Primary)?;
        let at = expect(terminals, at, Symbol::Key)?;
        Ok((ColumnRule::Key, at))
    }
}

// How many rules are NOT NULL. Where they are more than a u32 counts, there is no memory for so long a text.
fn not_nulls(rules: &[ColumnRule]) -> Result<u32, Memory>
    ensures counts { IfOk result (λ n. n ≡ count_by is_not_null rules.now) }
    ensures past { OnErr result (2 ^ 32 ≤ count_by is_not_null rules.now) }
{
    let count = rules
        .iter()
        .filter(|rule| matches!(**rule, ColumnRule::NotNull))
        .count();
    u32::try_from(count).map_err(|_| Memory)
}

// How many rules are PRIMARY KEY, in the same way.
fn keys(rules: &[ColumnRule]) -> Result<u32, Memory>
    ensures counts { IfOk result (λ n. n ≡ count_by is_key rules.now) }
    ensures past { OnErr result (2 ^ 32 ≤ count_by is_key rules.now) }
{
    let count = rules
        .iter()
        .filter(|rule| matches!(**rule, ColumnRule::Key))
        .count();
    u32::try_from(count).map_err(|_| Memory)
}

/// name type {NOT NULL | PRIMARY KEY}
#[tactic(auto, unfolding(sql_grammar::specs::Reading::column_at))]
pub fn column(
    alloc: Global,
    terminals: &[Terminal],
    at: usize,
) -> Result<(ColumnDef, usize), Refused>
    ensures { AnswersReading result (column_at terminals.now at) }
{
    let (name, at) = name(terminals, at)?;
    let (kind, at) = kind(terminals, at)?;
    let (rules, at) = many::<ColumnRule>(alloc, terminals, at)?;
    let not_null = not_nulls(rules.as_slice())?;
    let key = keys(rules.as_slice())?;
    Ok((
        ColumnDef {
            name,
            kind,
            not_null,
            key,
        },
        at,
    ))
}

/// TABLE name ( column {, column} )
#[tactic(auto, unfolding(sql_grammar::specs::Reading::create_at))]
pub fn create(alloc: Global, terminals: &[Terminal], at: usize) -> Result<(Stmt, usize), Refused>
    ensures { AnswersReading result (create_at terminals.now at) }
{
    let at = expect(terminals, at, Symbol::Table)?;
    let (table, at) = name(terminals, at)?;
    let at = expect(terminals, at, Symbol::Open)?;
    let (columns, at) = commas::<ColumnDef>(alloc, terminals, at)?;
    let at = expect(terminals, at, Symbol::Close)?;
    Ok((Stmt::CreateTable(table, columns), at))
}

/// TABLE name
#[tactic(auto, unfolding(sql_grammar::specs::Reading::drop_at))]
pub fn drop_table(terminals: &[Terminal], at: usize) -> Result<(Stmt, usize), Refused>
    ensures { AnswersReading result (drop_at terminals.now at) }
{
    let at = expect(terminals, at, Symbol::Table)?;
    let (table, at) = name(terminals, at)?;
    Ok((Stmt::DropTable(table), at))
}
