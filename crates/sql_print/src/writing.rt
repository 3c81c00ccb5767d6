// How what is printed is written.
ghost use Rattle.std.specs.Prelude.{◌≡◌, ◌++◌, ◌∷◌, [], ◌||◌, map, OnOk};
ghost use Rattle.std.specs.Char.{to_ascii_uppercase};
ghost use Rattle.sql_lex.specs.Spelling.{doubled};
ghost use Rattle.sql_grammar.specs.Words.{bytes_of};
ghost use Rattle.sql_grammar.specs.PrintTokens.{spelled};
ghost use Rattle.sql_grammar.specs.PrintTokens.{function_name};
ghost use Rattle.sql_print.specs.Writing.{print_token_bytes, gap};

use dl_base::{Fold, List, Memory, Part};
use sql_grammar::{Function, LinkWord, PrintToken, Symbol};

// A symbol, reserved words in capitals.
fn spelled(symbol: Symbol) -> &'static [u8]
    ensures { result.now ≡ spelled symbol }
{
    match symbol {
        Symbol::And => b"AND",
        Symbol::As => b"AS",
        Symbol::Asc => b"ASC",
        Symbol::Begin => b"BEGIN",
        Symbol::Bigint => b"BIGINT",
        Symbol::By => b"BY",
        Symbol::Commit => b"COMMIT",
        Symbol::Create => b"CREATE",
        Symbol::Datalink => b"DATALINK",
        Symbol::Delete => b"DELETE",
        Symbol::Desc => b"DESC",
        Symbol::Drop => b"DROP",
        Symbol::From => b"FROM",
        Symbol::Group => b"GROUP",
        Symbol::Inner => b"INNER",
        Symbol::Insert => b"INSERT",
        Symbol::Integer => b"INTEGER",
        Symbol::Into => b"INTO",
        Symbol::Is => b"IS",
        Symbol::Join => b"JOIN",
        Symbol::Key => b"KEY",
        Symbol::Not => b"NOT",
        Symbol::Null => b"NULL",
        Symbol::On => b"ON",
        Symbol::Or => b"OR",
        Symbol::Order => b"ORDER",
        Symbol::Primary => b"PRIMARY",
        Symbol::Rollback => b"ROLLBACK",
        Symbol::Select => b"SELECT",
        Symbol::Set => b"SET",
        Symbol::Table => b"TABLE",
        Symbol::Update => b"UPDATE",
        Symbol::Values => b"VALUES",
        Symbol::Varchar => b"VARCHAR",
        Symbol::Where => b"WHERE",
        Symbol::Open => b"(",
        Symbol::Close => b")",
        Symbol::Comma => b",",
        Symbol::Dot => b".",
        Symbol::Semicolon => b";",
        Symbol::Star => b"*",
        Symbol::Plus => b"+",
        Symbol::Minus => b"-",
        Symbol::Slash => b"/",
        Symbol::Equal => b"=",
        Symbol::Unequal => b"<>",
        Symbol::Less => b"<",
        Symbol::LessEqual => b"<=",
        Symbol::Greater => b">",
        Symbol::GreaterEqual => b">=",
    }
}

// A word of link options in capitals.
fn link_word(word: LinkWord) -> &'static [u8]
    ensures { result.now ≡ map to_ascii_uppercase (bytes_of word) }
{
    match word {
        LinkWord::Linktype => b"LINKTYPE",
        LinkWord::Url => b"URL",
        LinkWord::No => b"NO",
        LinkWord::Link => b"LINK",
        LinkWord::Control => b"CONTROL",
        LinkWord::File => b"FILE",
        LinkWord::Mode => b"MODE",
        LinkWord::Db2options => b"DB2OPTIONS",
        LinkWord::Integrity => b"INTEGRITY",
        LinkWord::All => b"ALL",
        LinkWord::Selective => b"SELECTIVE",
        LinkWord::None => b"NONE",
        LinkWord::Read => b"READ",
        LinkWord::Permission => b"PERMISSION",
        LinkWord::Fs => b"FS",
        LinkWord::Db => b"DB",
        LinkWord::Write => b"WRITE",
        LinkWord::Blocked => b"BLOCKED",
        LinkWord::Admin => b"ADMIN",
        LinkWord::Recovery => b"RECOVERY",
        LinkWord::Yes => b"YES",
        LinkWord::Unlink => b"UNLINK",
        LinkWord::Restore => b"RESTORE",
    }
}

// The name of a function in capitals.
fn function_word(function: Function) -> &'static [u8]
    ensures { result.now ≡ map to_ascii_uppercase (function_name function) }
{
    match function {
        Function::Count => b"COUNT",
        Function::Aggregate(fold) => match fold {
            Fold::Sum => b"SUM",
            Fold::Min => b"MIN",
            Fold::Max => b"MAX",
        },
        Function::Access(part) => match part {
            Part::Comment => b"DLCOMMENT",
            Part::LinkType => b"DLLINKTYPE",
            Part::Scheme => b"DLURLSCHEME",
            Part::Server => b"DLURLSERVER",
            Part::PathOnly => b"DLURLPATHONLY",
            Part::Path => b"DLURLPATH",
            Part::Complete => b"DLURLCOMPLETE",
        },
        Function::Dlvalue => b"DLVALUE",
    }
}

// A byte of a literal.
fn put_literal_byte(out: &mut List<u8>, byte: u8) -> Result<(), Memory>
    ensures { OnOk result (out.new ≡ out.old ++ doubled (byte ∷ [])) }
{
    if byte == b'\'' {
        out.push(b'\'')?;
        out.push(b'\'')?;
        Ok(())
    } else {
        out.push(byte)?;
        Ok(())
    }
}

// Each quote twice.
#[tactic(auto, using(crate::proofs::Joins::doubled_step))]
fn put_doubled(out: &mut List<u8>, bytes: &[u8]) -> Result<(), Memory>
    ensures { OnOk result (out.new ≡ out.old ++ doubled bytes.now) }
{
    'bytes: for byte in bytes {
        put_literal_byte(out, *byte)?;
    }
    Ok(())
}

/// Appends what is printed in one piece.
pub fn put_token(out: &mut List<u8>, token: &PrintToken) -> Result<(), Memory>
    ensures { OnOk result (out.new ≡ out.old ++ print_token_bytes token.now) }
{
    match token {
        PrintToken::Symbol(symbol) => out.extend(spelled(*symbol)),
        PrintToken::Link(word) => out.extend(link_word(*word)),
        PrintToken::Function(function) => out.extend(function_word(*function)),
        PrintToken::Name(name) => out.extend(name.bytes()),
        PrintToken::Number(number) => {
            let digits = number.to_string(out.allocator())?;
            out.extend(digits.as_bytes())
        }
        PrintToken::Literal(text) => {
            out.push(b'\'')?;
            put_doubled(out, text.bytes())?;
            out.push(b'\'')?;
            Ok(())
        }
    }
}

/// Appends a blank, or none behind and before a dot and at the beginning.
pub fn put_gap(out: &mut List<u8>, tight: bool, dot: bool) -> Result<(), Memory>
    ensures { OnOk result (out.new ≡ out.old ++ gap (tight || dot)) }
{
    if tight {
        Ok(())
    } else if dot {
        Ok(())
    } else {
        out.push(b' ')?;
        Ok(())
    }
}
