//! What is told of a line.
ghost use Rattle.std.specs.Prelude.{◌≡◌, ◌++◌, decimal, List as Items, IfOk, OnOk, ℕ};
ghost use Rattle.sql_grammar.specs.Meaning.{Means};
ghost use Rattle.sql_print.specs.Writing.{text_of};
ghost use Rattle.sql_echo.specs.Told.{Tells, TellsFault};

use dl_base::{List, Memory, Stmt, Text};
use sql_print::{print, print_again};
use sql_syntax::{ParseFault, parse};
use std::alloc::Global;

// Appends a number in decimal.
fn put_number(out: &mut List<u8>, number: u64) -> Result<(), Memory>
    ensures { OnOk result (out.new ≡ out.old ++ decimal number) }
{
    let digits = number.to_string(out.allocator())?;
    out.extend(digits.as_bytes())
}

// Words and a number.
fn placed(alloc: Global, words: &[u8], place: u64) -> Result<Text, Memory>
    ensures { IfOk result (λ t. t ≡ words.now ++ decimal place) }
{
    let mut text = List::empty(alloc);
    text.extend(words)?;
    put_number(&mut text, place)?;
    Ok(Text::from_vec(text.into_vec()))
}

// Why a text is no statement.
fn fault_text(alloc: Global, fault: ParseFault) -> Result<Text, Memory>
    ensures { IfOk result (λ t. TellsFault fault t) }
{
    match fault {
        ParseFault::BadChar(place) => placed(alloc, b"bad char ", place),
        ParseFault::Syntax(place) => placed(alloc, b"syntax ", place),
        ParseFault::Memory => Err(Memory),
    }
}

// What is printed of the statement of a text, by way of what is printed of it.
fn twice(alloc: Global, stmt: &Stmt) -> Result<Text, Memory>
    ensures { (text : Items ℕ) → Means text stmt.now → IfOk result (λ t. t ≡ text_of stmt.now) }
{
    print_again();
    let once = print(alloc, stmt)?;
    match parse(alloc, once.bytes()) {
        Ok(again) => print(alloc, &again),
        Err(fault) => fault_text(alloc, fault),
    }
}

/// The statement of a text as it is printed, or `bad char N` or `syntax N`.
pub fn told(alloc: Global, text: &[u8]) -> Result<Text, Memory>
    ensures { IfOk result (λ t. Tells text.now t) }
{
    match parse(alloc, text) {
        Ok(stmt) => twice(alloc, &stmt),
        Err(fault) => fault_text(alloc, fault),
    }
}
