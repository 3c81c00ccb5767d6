// The lexemes of a text.
ghost use Rattle.std.specs.Prelude.{◌≡◌, List, IfOk, ℕ, Ok, Err};
ghost use Rattle.sql_lex.specs.declared.lexeme.Lexeme as placed;
ghost use Rattle.dl_base.specs.Blank.{is_blank};
ghost use Rattle.sql_lex.specs.Scan.{scan};
ghost use Rattle.sql_lex.specs.Lexes.{Lexes, IsBad, AnswersLexing, IfBadChar};

use crate::front::front_lexeme;
use crate::lexeme::{LexFault, Lexeme};
use dl_base::List;
use std::alloc::Global;

fn is_blank(b: u8) -> bool
    ensures { result ≡ is_blank b }
{
    b == b' ' || b == b'\t'
}

// The lexemes from left to right.
#[tactic(auto, using(crate::proofs::Steps::blank_step, crate::proofs::Steps::lexeme_step, crate::proofs::Steps::bad_step, crate::proofs::Steps::done))]
fn scan(alloc: Global, text: &[u8]) -> Result<List<Lexeme>, LexFault>
    ensures { AnswersLexing result (scan 0 1 text.now) }
{
    let mut list = List::empty(alloc);
    let mut at = 0;
    'bytes: while at < text.len() {
        if is_blank(text[at]) {
            at += 1;
            continue;
        }
        let begin = at as u64 + 1;
        let Some((kind, len)) = front_lexeme(alloc, &text[at..])? else {
            return Err(LexFault::BadChar(begin));
        };
        let end = begin + len as u64;
        list.push(Lexeme { kind, begin, end })?;
        at += len;
    }
    Ok(list)
}

/// The lexemes of a text, in order, with their places counted from 1. Blanks are space and tab.
/// It reads each byte a fixed number of times.
#[tactic(auto, using(crate::proofs::Lexed::is_found, crate::proofs::Lexed::is_only, crate::proofs::Lexed::is_bad, crate::proofs::Lexed::is_bad_only))]
pub fn lex(alloc: Global, text: &[u8]) -> Result<List<Lexeme>, LexFault>
    // The text is these lexemes, each the longest where it begins, with blanks round them.
    ensures found { IfOk result (λ list. Lexes 1 text.now list) }
    // If the text is some lexemes, it gives those, unless memory runs out.
    ensures only { (xs : List placed.Lexeme) → Lexes 1 text.now xs → AnswersLexing result (Ok xs) }
    // The place is that of the first byte that is no blank and begins no lexeme, behind lexemes and blanks.
    ensures bad { IfBadChar result (λ k. IsBad text.now k) }
    // If there is such a place, it is told, unless memory runs out.
    ensures bad_only { (k : ℕ) → IsBad text.now k → AnswersLexing result (Err k) }
{
    scan(alloc, text)
}
