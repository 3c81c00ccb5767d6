//! Expressions from terminals, over a stack of what is still open.
//!
//! Where an expression ends, `drop` is written: what would be let go without a word is proved variant by variant at each such place.

ghost use Rattle.std.specs.Prelude.{◌≡◌, ◌∷◌, ◌<◌, ◌&&◌, ℕ, suc, nat_lt, if◌then◌else◌, length, drop, IfOk, IsOkAnd, IsSome, None, Some};
ghost use Rattle.std.specs.Option.{option_map};
ghost use Rattle.dl_base.specs.declared.statement.Expr.{Expr};
ghost use Rattle.dl_base.specs.declared.statement.Expr as expr;
ghost use Rattle.dl_base.specs.Limits.{most_open_parentheses, most_operators};
ghost use Rattle.sql_grammar.specs.Cues.{cue, cue_of, an_operator, a_not, an_is, a_close, a_comma};
ghost use Rattle.sql_grammar.specs.Forms.{reference};
ghost use Rattle.sql_grammar.specs.Machine.{reduced, move, ended, binds_at, applied, enclosed, need, frame_need, due, after, Go, move_after, leave, closed, passed, call_open, callee_of, callees, look_up};
ghost use Rattle.sql_grammar.specs.Machine as machine;
ghost use Rattle.sql_grammar.specs.declared.frame.Callee.TheVariants as callee;
ghost use Rattle.sql_grammar.specs.declared.frame.Frame.{Frame};
ghost use Rattle.sql_grammar.specs.declared.frame.Frame.TheVariants as frame;
ghost use Rattle.sql_grammar.specs.declared.frame.Opening.{Opening};
ghost use Rattle.sql_grammar.specs.declared.frame.Opening.TheVariants as opening;
ghost use Rattle.sql_precedence.specs.Views.{stack_of, state_of, move_of, asked, counting};

use crate::role::{Role, left, level, right, role_of};
use crate::word::same_bytes;
use dl_base::limits::{MOST_OPEN_PARENTHESES, MOST_OPERATORS};
use dl_base::{Boxed, Expr, Fold, Memory, Name, Op, Part, Ref};
use sql_grammar::{Callee, Frame, Opening, Symbol, Terminal};
use std::alloc::Global;

// How tightly an operand without operators binds.
const TIGHTEST: u8 = 7;

/// What is still open, with the operators so far and the open parentheses.
#[derive(Drop)]
pub struct Stack {
    pub frames: Vec<Frame>,
    pub operators: u32,
    pub parentheses: u32,
}

/// What is due, or has been read.
#[derive(Drop)]
pub enum Reading {
    /// An operand.
    Due(Stack),
    /// An operand has been read, which binds as tightly as the level.
    After(Stack, Expr, u8),
    /// A word has been read, which is a column, a table or a function.
    Named(Stack, Name),
    /// Behind a table and a dot.
    Dotted(Stack, Name),
    /// Behind IS.
    IsDue(Stack, Expr),
    /// Behind IS NOT.
    NotDue(Stack, Expr),
    /// Behind COUNT and its parenthesis.
    StarDue(Stack),
    /// Behind the `*` of COUNT.
    StarRead(Stack),
}

/// A terminal is taken, or ends the expression before it, or is refused.
#[derive(Drop)]
pub enum Step {
    Go(Reading),
    Stop(Expr),
    Refuse,
}

// Whether a frame binds the operand after it at least as tightly as `low`.
fn binds(frame: &Frame, low: u8) -> bool
    ensures { result ≡ binds_at low frame.now }
{
    match frame {
        Frame::Opened(_) => false,
        Frame::Negation => low <= 2,
        Frame::Sign => low <= 6,
        Frame::Infix(op, _) => low <= level(*op),
    }
}

// Two operands in boxes.
fn boxed(alloc: Global, first: Expr, second: Expr) -> Result<(Boxed<Expr>, Boxed<Expr>), Memory>
    ensures { IfOk result (λ r. (r.0 ≡ first) × (r.1 ≡ second)) }
{
    match Boxed::new(alloc, first) {
        Ok(first) => match Boxed::new(alloc, second) {
            Ok(second) => Ok((first, second)),
            Err(_) => {
                drop(first);
                Err(Memory)
            }
        },
        Err(_) => {
            drop(second);
            Err(Memory)
        }
    }
}

// What a parenthesis that closes makes of the operand before it.
fn enclosed(alloc: Global, opening: Opening, last: Expr) -> Result<Expr, Memory>
    ensures { IfOk result (λ e. e ≡ enclosed opening last) }
{
    match opening {
        Opening::Group => Ok(last),
        Opening::Aggregate(fold) => Ok(Expr::Aggregate(fold, Boxed::new(alloc, last)?)),
        Opening::Access(part) => Ok(Expr::Access(part, Boxed::new(alloc, last)?)),
        Opening::Dlvalue1 => Ok(Expr::Dlvalue1(Boxed::new(alloc, last)?)),
        Opening::Dlvalue2(first) => {
            let (first, last) = boxed(alloc, first, last)?;
            Ok(Expr::Dlvalue2(first, last))
        }
        Opening::Dlvalue3(first, second) => dlvalue3(alloc, first, second, last),
    }
}

fn dlvalue3(alloc: Global, first: Expr, second: Expr, third: Expr) -> Result<Expr, Memory>
    ensures { IfOk result (λ e. e ≡ expr.Dlvalue3 first second third) }
{
    match Boxed::new(alloc, first) {
        Ok(first) => match boxed(alloc, second, third) {
            Ok((second, third)) => Ok(Expr::Dlvalue3(first, second, third)),
            Err(memory) => {
                drop(first);
                Err(memory)
            }
        },
        Err(_) => {
            drop(second);
            drop(third);
            Err(Memory)
        }
    }
}

// What a frame makes of the operand after it.
fn applied(alloc: Global, frame: Frame, last: Expr) -> Result<Expr, Memory>
    ensures { IfOk result (λ e. e ≡ applied frame last) }
{
    match frame {
        Frame::Opened(opening) => enclosed(alloc, opening, last),
        Frame::Negation => Ok(Expr::Not(Boxed::new(alloc, last)?)),
        Frame::Sign => Ok(Expr::Minus(Boxed::new(alloc, last)?)),
        Frame::Infix(op, before) => {
            let (before, last) = boxed(alloc, before, last)?;
            Ok(Expr::Binary(op, before, last))
        }
    }
}

// The last frame leaves, where it binds the operand after it at least as tightly as `low`.
#[tactic(auto, using(crate::proofs::Stacks::stack_push))]
fn pop_bound(frames: &mut Vec<Frame>, low: u8) -> Option<Frame>
    ensures none { result ≡ None → (last : Expr) → reduced low (stack_of frames.old.items) last ≡ (stack_of frames.new.items, last) }
    ensures some { (f : Frame) → result ≡ Some f → (last : Expr) → reduced low (stack_of frames.old.items) last ≡ reduced low (stack_of frames.new.items) (applied f last) }
    ensures fewer { IsSome result → length frames.new.items < length frames.old.items }
{
    match frames.last() {
        Some(frame) if binds(frame, low) => frames.pop(),
        _ => None,
    }
}

// Applies what binds at least as tightly as `low`.
fn reduce(alloc: Global, frames: &mut Vec<Frame>, low: u8, last: Expr) -> Result<Expr, Memory>
    ensures { IfOk result (λ e. reduced low (stack_of frames.old.items) last ≡ (stack_of frames.new.items, e)) }
{
    let mut value = last;
    while let Some(frame) = pop_bound(frames, low) {
        value = applied(alloc, frame, value)?;
    }
    Ok(value)
}

// What is still open is let go.
fn give_up(stack: Stack) -> Result<Step, Memory>
    ensures { IsOkAnd result (λ s. move_of s ≡ machine.Refuse) }
{
    drop(stack);
    Ok(Step::Refuse)
}

// What is still open and the operand behind it are let go.
fn refuse(stack: Stack, last: Expr) -> Result<Step, Memory>
    ensures { IsOkAnd result (λ s. move_of s ≡ machine.Refuse) }
{
    drop(last);
    give_up(stack)
}

// A fourth argument of DLVALUE.
fn fourth(stack: Stack, first: Expr, second: Expr, third: Expr) -> Result<Step, Memory>
    ensures { IsOkAnd result (λ s. move_of s ≡ machine.Refuse) }
{
    drop(first);
    drop(second);
    refuse(stack, third)
}

// One more frame.
#[tactic(auto, using(crate::proofs::Stacks::stack_push))]
fn push(mut stack: Stack, frame: Frame) -> Result<Step, Memory>
    ensures { IfOk result (λ s. move_of s ≡ Go (due (frame ∷ stack_of stack.frames.items) stack.operators stack.parentheses)) }
{
    match stack.frames.push(frame) {
        Ok(()) => Ok(Step::Go(Reading::Due(stack))),
        Err(refused) => {
            drop(refused);
            drop(stack);
            Err(Memory)
        }
    }
}

// One more frame, which counts as an operator.
fn push_operator(mut stack: Stack, frame: Frame) -> Result<Step, Memory>
    ensures { IfOk result (λ s. move_of s
        ≡ (if nat_lt stack.operators most_operators then Go (due (frame ∷ stack_of stack.frames.items) (suc stack.operators) stack.parentheses) else machine.Refuse)) }
{
    if stack.operators < MOST_OPERATORS {
        stack.operators += 1;
        push(stack, frame)
    } else {
        drop(frame);
        give_up(stack)
    }
}

// One more parenthesis that is open.
fn open(mut stack: Stack, opening: Opening) -> Result<Step, Memory>
    ensures { IfOk result (λ s. move_of s
        ≡ (if nat_lt stack.parentheses most_open_parentheses then Go (due (frame.Opened opening ∷ stack_of stack.frames.items) stack.operators (suc stack.parentheses)) else machine.Refuse)) }
{
    if stack.parentheses < MOST_OPEN_PARENTHESES {
        stack.parentheses += 1;
        push(stack, Frame::Opened(opening))
    } else {
        drop(opening);
        give_up(stack)
    }
}

// How tightly the operand after a frame binds at least.
fn frame_need(frame: &Frame) -> u8
    ensures { result ≡ frame_need frame.now }
{
    match frame {
        Frame::Opened(_) => 0,
        Frame::Negation => 2,
        Frame::Sign => 6,
        Frame::Infix(op, _) => right(*op),
    }
}

// How tightly an operand on the stack binds at least.
#[tactic(auto, using(crate::proofs::Stacks::need_last))]
fn need(frames: &[Frame]) -> u8
    ensures { result ≡ need (stack_of frames.now) }
{
    match frames.last() {
        None => 0,
        Some(frame) => frame_need(frame),
    }
}

// NOT where an operand is due.
fn negation(stack: Stack) -> Result<Step, Memory>
    ensures { IfOk result (λ s. move_of s
        ≡ move (due (stack_of stack.frames.items) stack.operators stack.parentheses) a_not) }
{
    if need(&stack.frames) <= 2 {
        push_operator(stack, Frame::Negation)
    } else {
        give_up(stack)
    }
}

// A symbol where an operand is due.
fn operand_symbol(stack: Stack, symbol: Symbol) -> Result<Step, Memory>
    ensures { IfOk result (λ s. move_of s
        ≡ move (due (stack_of stack.frames.items) stack.operators stack.parentheses) (cue_of symbol)) }
{
    match role_of(symbol) {
        Role::Operator(Op::Sub) => push_operator(stack, Frame::Sign),
        Role::Not => negation(stack),
        Role::Open => open(stack, Opening::Group),
        Role::Null => Ok(Step::Go(Reading::After(stack, Expr::Null, TIGHTEST))),
        _ => give_up(stack),
    }
}

// A terminal where an operand is due.
fn operand(stack: Stack, terminal: &Terminal) -> Result<Step, Memory>
    ensures { IfOk result (λ s. move_of s
        ≡ move (due (stack_of stack.frames.items) stack.operators stack.parentheses) (cue terminal.now)) }
{
    match terminal {
        Terminal::Fixed(symbol) => operand_symbol(stack, *symbol),
        Terminal::Number(n) => Ok(Step::Go(Reading::After(stack, Expr::Number(*n), TIGHTEST))),
        Terminal::Literal(text) => match text.copy() {
            Ok(text) => Ok(Step::Go(Reading::After(stack, Expr::Literal(text), TIGHTEST))),
            Err(memory) => {
                drop(stack);
                Err(memory)
            }
        },
        Terminal::Word(name) => match name.copy() {
            Ok(name) => Ok(Step::Go(Reading::Named(stack, name))),
            Err(memory) => {
                drop(stack);
                Err(memory)
            }
        },
    }
}

// An operator after an operand that binds as tightly as `bound`.
fn operator(alloc: Global, mut stack: Stack, last: Expr, bound: u8, op: Op) -> Result<Step, Memory>
    ensures { IfOk result (λ s. move_of s
        ≡ move_after (stack_of stack.frames.items) last bound stack.operators stack.parentheses (an_operator op)) }
{
    let value = reduce(alloc, &mut stack.frames, left(op), last)?;
    if left(op) <= bound && need(&stack.frames) <= level(op) {
        push_operator(stack, Frame::Infix(op, value))
    } else {
        refuse(stack, value)
    }
}

// IS after an operand that binds as tightly as `bound`.
fn ask(alloc: Global, mut stack: Stack, last: Expr, bound: u8) -> Result<Step, Memory>
    ensures { IfOk result (λ s. move_of s
        ≡ move_after (stack_of stack.frames.items) last bound stack.operators stack.parentheses an_is) }
{
    let value = reduce(alloc, &mut stack.frames, 4, last)?;
    if bound >= 4 && need(&stack.frames) <= 3 && stack.operators < MOST_OPERATORS {
        stack.operators += 1;
        Ok(Step::Go(Reading::IsDue(stack, value)))
    } else {
        refuse(stack, value)
    }
}

// The last frame leaves; what it is behind, where it is a parenthesis.
#[tactic(auto, using(crate::proofs::Stacks::stack_push))]
fn pop_opening(frames: &mut Vec<Frame>) -> Option<Opening>
    ensures some { (g : Opening) → result ≡ Some g → stack_of frames.old.items ≡ frame.Opened g ∷ stack_of frames.new.items }
    ensures unclosed { result ≡ None → (last : Expr) (n p : ℕ) → closed (stack_of frames.old.items) last n p ≡ machine.Refuse }
    ensures unpassed { result ≡ None → (last : Expr) (n p : ℕ) → passed (stack_of frames.old.items) last n p ≡ machine.Refuse }
{
    match frames.pop() {
        Some(Frame::Opened(opening)) => Some(opening),
        Some(other) => {
            drop(other);
            None
        }
        None => None,
    }
}

// The operand that a parenthesis has enclosed.
fn shut(alloc: Global, stack: Stack, opening: Opening, last: Expr) -> Result<Step, Memory>
    ensures { IfOk result (λ s. move_of s ≡ Go (after (stack_of stack.frames.items) (enclosed opening last) 7 stack.operators stack.parentheses)) }
{
    match enclosed(alloc, opening, last) {
        Ok(value) => Ok(Step::Go(Reading::After(stack, value, TIGHTEST))),
        Err(memory) => {
            drop(stack);
            Err(memory)
        }
    }
}

// A parenthesis that closes.
fn close(alloc: Global, mut stack: Stack, last: Expr, bound: u8) -> Result<Step, Memory>
    ensures { IfOk result (λ s. move_of s
        ≡ move_after (stack_of stack.frames.items) last bound stack.operators stack.parentheses a_close) }
{
    let value = reduce(alloc, &mut stack.frames, 0, last)?;
    if stack.parentheses == 0 {
        drop(stack);
        return Ok(Step::Stop(value));
    }
    match pop_opening(&mut stack.frames) {
        Some(opening) => {
            stack.parentheses -= 1;
            shut(alloc, stack, opening, value)
        }
        None => refuse(stack, value),
    }
}

// One more argument of DLVALUE, behind what has been opened.
fn argument(stack: Stack, opening: Opening, value: Expr) -> Result<Step, Memory>
    ensures { IfOk result (λ s. move_of s
        ≡ passed (frame.Opened opening ∷ stack_of stack.frames.items) value stack.operators stack.parentheses) }
{
    match opening {
        Opening::Dlvalue1 => push(stack, Frame::Opened(Opening::Dlvalue2(value))),
        Opening::Dlvalue2(first) => push(stack, Frame::Opened(Opening::Dlvalue3(first, value))),
        Opening::Group => refuse(stack, value),
        Opening::Aggregate(_) => refuse(stack, value),
        Opening::Access(_) => refuse(stack, value),
        Opening::Dlvalue3(first, second) => fourth(stack, first, second, value),
    }
}

// A comma.
fn pass(alloc: Global, mut stack: Stack, last: Expr, bound: u8) -> Result<Step, Memory>
    ensures { IfOk result (λ s. move_of s
        ≡ move_after (stack_of stack.frames.items) last bound stack.operators stack.parentheses a_comma) }
{
    let value = reduce(alloc, &mut stack.frames, 0, last)?;
    if stack.parentheses == 0 {
        drop(stack);
        return Ok(Step::Stop(value));
    }
    match pop_opening(&mut stack.frames) {
        Some(opening) => argument(stack, opening, value),
        None => refuse(stack, value),
    }
}

// What goes on with no operand, or the end.
fn leave(alloc: Global, mut stack: Stack, last: Expr) -> Result<Step, Memory>
    ensures { IfOk result (λ s. move_of s ≡ leave (reduced 0 (stack_of stack.frames.items) last) stack.parentheses) }
{
    let value = reduce(alloc, &mut stack.frames, 0, last)?;
    if stack.parentheses == 0 {
        drop(stack);
        Ok(Step::Stop(value))
    } else {
        refuse(stack, value)
    }
}

// A terminal after an operand that binds as tightly as `bound`.
fn behind(
    alloc: Global,
    stack: Stack,
    last: Expr,
    bound: u8,
    terminal: &Terminal,
) -> Result<Step, Memory>
    ensures { IfOk result (λ s. move_of s
        ≡ move_after (stack_of stack.frames.items) last bound stack.operators stack.parentheses (cue terminal.now)) }
{
    match terminal {
        Terminal::Fixed(symbol) => match role_of(*symbol) {
            Role::Operator(op) => operator(alloc, stack, last, bound, op),
            Role::Is => ask(alloc, stack, last, bound),
            Role::Close => close(alloc, stack, last, bound),
            Role::Comma => pass(alloc, stack, last, bound),
            Role::Not | Role::Null | Role::Open | Role::Dot | Role::Other => leave(
                alloc, stack, last,
            ),
        },
        Terminal::Number(_) => leave(alloc, stack, last),
        Terminal::Literal(_) => leave(alloc, stack, last),
        Terminal::Word(_) => leave(alloc, stack, last),
    }
}

// The part of a link that a name before a parenthesis gives.
fn part_of(name: &[u8]) -> Option<Part>
    ensures { option_map (λ p. callee.Opens (opening.Access p)) result ≡ look_up (drop 5 callees) name.now }
{
    if same_bytes(name, b"dlcomment") {
        Some(Part::Comment)
    } else if same_bytes(name, b"dllinktype") {
        Some(Part::LinkType)
    } else if same_bytes(name, b"dlurlscheme") {
        Some(Part::Scheme)
    } else if same_bytes(name, b"dlurlserver") {
        Some(Part::Server)
    } else if same_bytes(name, b"dlurlpathonly") {
        Some(Part::PathOnly)
    } else if same_bytes(name, b"dlurlpath") {
        Some(Part::Path)
    } else if same_bytes(name, b"dlurlcomplete") {
        Some(Part::Complete)
    } else {
        None
    }
}

// What a name before a parenthesis calls.
fn callee(name: &[u8]) -> Option<Callee>
    ensures { result ≡ callee_of name.now }
{
    if same_bytes(name, b"count") {
        Some(Callee::Count)
    } else if same_bytes(name, b"sum") {
        Some(Callee::Opens(Opening::Aggregate(Fold::Sum)))
    } else if same_bytes(name, b"min") {
        Some(Callee::Opens(Opening::Aggregate(Fold::Min)))
    } else if same_bytes(name, b"max") {
        Some(Callee::Opens(Opening::Aggregate(Fold::Max)))
    } else if same_bytes(name, b"dlvalue") {
        Some(Callee::Opens(Opening::Dlvalue1))
    } else {
        match part_of(name) {
            Some(part) => Some(Callee::Opens(Opening::Access(part))),
            None => None,
        }
    }
}

// The column of a name.
fn column(table: Option<Name>, column: Name) -> Expr
    ensures { result ≡ expr.Column (reference table column) }
{
    Expr::Column(Ref { table, column })
}

// COUNT and its parenthesis.
fn open_count(mut stack: Stack) -> Result<Step, Memory>
    ensures { IsOkAnd result (λ s. move_of s
        ≡ (if nat_lt stack.operators most_operators && nat_lt stack.parentheses most_open_parentheses then Go (machine.star_due (stack_of stack.frames.items) (suc stack.operators) stack.parentheses) else machine.Refuse)) }
{
    if stack.operators < MOST_OPERATORS && stack.parentheses < MOST_OPEN_PARENTHESES {
        stack.operators += 1;
        Ok(Step::Go(Reading::StarDue(stack)))
    } else {
        give_up(stack)
    }
}

// Another function and its parenthesis.
fn open_call(mut stack: Stack, opening: Opening) -> Result<Step, Memory>
    ensures { IfOk result (λ s. move_of s
        ≡ (if nat_lt stack.operators most_operators && nat_lt stack.parentheses most_open_parentheses then Go (due (frame.Opened opening ∷ stack_of stack.frames.items) (suc stack.operators) (suc stack.parentheses)) else machine.Refuse)) }
{
    if stack.operators < MOST_OPERATORS {
        stack.operators += 1;
        open(stack, opening)
    } else {
        drop(opening);
        give_up(stack)
    }
}

// A parenthesis behind a word.
fn call(alloc: Global, stack: Stack, name: Name) -> Result<Step, Memory>
    ensures { IfOk result (λ s. move_of s
        ≡ call_open (callee_of name) (stack_of stack.frames.items) name stack.operators stack.parentheses) }
{
    match callee(name.bytes()) {
        None => leave(alloc, stack, column(None, name)),
        Some(Callee::Count) => {
            drop(name);
            open_count(stack)
        }
        Some(Callee::Opens(opening)) => {
            drop(name);
            open_call(stack, opening)
        }
    }
}

// A terminal behind a word.
fn named(alloc: Global, stack: Stack, name: Name, terminal: &Terminal) -> Result<Step, Memory>
    ensures { IfOk result (λ s. move_of s
        ≡ move (machine.named (stack_of stack.frames.items) name stack.operators stack.parentheses) (cue terminal.now)) }
{
    match terminal {
        Terminal::Fixed(symbol) => match role_of(*symbol) {
            Role::Open => call(alloc, stack, name),
            Role::Dot => Ok(Step::Go(Reading::Dotted(stack, name))),
            Role::Operator(_)
            | Role::Not
            | Role::Is
            | Role::Null
            | Role::Close
            | Role::Comma
            | Role::Other => { behind(alloc, stack, column(None, name), TIGHTEST, terminal) }
        },
        Terminal::Number(_) => behind(alloc, stack, column(None, name), TIGHTEST, terminal),
        Terminal::Literal(_) => behind(alloc, stack, column(None, name), TIGHTEST, terminal),
        Terminal::Word(_) => behind(alloc, stack, column(None, name), TIGHTEST, terminal),
    }
}

// A terminal behind IS or IS NOT.
fn answer(
    alloc: Global,
    stack: Stack,
    last: Expr,
    holds: bool,
    terminal: &Terminal,
) -> Result<Step, Memory>
    ensures { IfOk result (λ s. move_of s
        ≡ move (asked holds (stack_of stack.frames.items) last stack.operators stack.parentheses) (cue terminal.now)) }
{
    match terminal {
        Terminal::Fixed(symbol) => match role_of(*symbol) {
            Role::Null => match Boxed::new(alloc, last) {
                Ok(last) => Ok(Step::Go(Reading::After(stack, Expr::IsNull(last, holds), 3))),
                Err(_) => {
                    drop(stack);
                    Err(Memory)
                },
            },
            Role::Not if holds => Ok(Step::Go(Reading::NotDue(stack, last))),
            _ => refuse(stack, last),
        },
        Terminal::Number(_) => refuse(stack, last),
        Terminal::Literal(_) => refuse(stack, last),
        Terminal::Word(_) => refuse(stack, last),
    }
}

// A terminal behind COUNT and its parenthesis, or behind its `*`.
fn count(stack: Stack, star: bool, terminal: &Terminal) -> Result<Step, Memory>
    ensures { IsOkAnd result (λ s. move_of s
        ≡ move (counting star (stack_of stack.frames.items) stack.operators stack.parentheses) (cue terminal.now)) }
{
    match terminal {
        Terminal::Fixed(symbol) => match role_of(*symbol) {
            Role::Operator(Op::Mul) if !star => Ok(Step::Go(Reading::StarRead(stack))),
            Role::Close if star => Ok(Step::Go(Reading::After(stack, Expr::CountAll, TIGHTEST))),
            _ => give_up(stack),
        },
        Terminal::Number(_) => give_up(stack),
        Terminal::Literal(_) => give_up(stack),
        Terminal::Word(_) => give_up(stack),
    }
}

// A column behind its table and a dot.
fn qualified(stack: Stack, table: Name, name: &Name) -> Result<Step, Memory>
    ensures { IfOk result (λ s. move_of s
        ≡ Go (after (stack_of stack.frames.items) (expr.Column (reference (Some table) name.now)) 7 stack.operators stack.parentheses)) }
{
    match name.copy() {
        Ok(name) => {
            let value = column(Some(table), name);
            Ok(Step::Go(Reading::After(stack, value, TIGHTEST)))
        }
        Err(memory) => {
            drop(table);
            drop(stack);
            Err(memory)
        }
    }
}

// A terminal behind a table and a dot.
fn dotted(stack: Stack, table: Name, terminal: &Terminal) -> Result<Step, Memory>
    ensures { IfOk result (λ s. move_of s
        ≡ move (machine.dotted (stack_of stack.frames.items) table stack.operators stack.parentheses) (cue terminal.now)) }
{
    match terminal {
        Terminal::Fixed(symbol) => match role_of(*symbol) {
            _ => {
                drop(table);
                give_up(stack)
            }
        },
        Terminal::Number(_) => {
            drop(table);
            give_up(stack)
        }
        Terminal::Literal(_) => {
            drop(table);
            give_up(stack)
        }
        Terminal::Word(name) => qualified(stack, table, name),
    }
}

/// The next terminal.
pub fn take(alloc: Global, reading: Reading, terminal: &Terminal) -> Result<Step, Memory>
    ensures { IfOk result (λ s. move_of s ≡ move (state_of reading) (cue terminal.now)) }
{
    match reading {
        Reading::Due(stack) => operand(stack, terminal),
        Reading::After(stack, last, bound) => behind(alloc, stack, last, bound, terminal),
        Reading::Named(stack, name) => named(alloc, stack, name, terminal),
        Reading::Dotted(stack, table) => dotted(stack, table, terminal),
        Reading::IsDue(stack, last) => answer(alloc, stack, last, true, terminal),
        Reading::NotDue(stack, last) => answer(alloc, stack, last, false, terminal),
        Reading::StarDue(stack) => count(stack, false, terminal),
        Reading::StarRead(stack) => count(stack, true, terminal),
    }
}

/// The end of the text.
pub fn end(alloc: Global, reading: Reading) -> Result<Step, Memory>
    ensures { IfOk result (λ s. move_of s ≡ ended (state_of reading)) }
{
    match reading {
        Reading::After(stack, last, _) => leave(alloc, stack, last),
        Reading::Named(stack, name) => leave(alloc, stack, column(None, name)),
        other => {
            drop(other);
            Ok(Step::Refuse)
        }
    }
}
