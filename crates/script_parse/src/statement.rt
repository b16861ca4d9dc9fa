//! Statements and blocks read from tokens, each with what is left behind it.
ghost use Rattle.std.specs.Prelude.{◌≡◌, ◌≤◌, ◌+◌, [], MatchResult};
ghost use Rattle.script_tree.specs.Grammar.{Stmt as AStmt, stmt_fixed, stmt_after, script_of};
ghost use Rattle.script_tree.specs.Spelling.{fixed, statements_fit};
ghost use Rattle.script_parse.specs.Reads.{ReadsStatement};
ghost use Rattle.script_parse_terms.specs.Reads.{ReadsFirst};
ghost use Rattle.script_parse_terms.specs.Takes.{Begun, begins};
ghost use Rattle.script_parse.specs.Bodies.{TookStmts, FailStmts, TookBlock, FailsBlock, starts_stmt, block_word_at, block_word_in};
ghost use Rattle.script_tree.specs.Tree.{statements_of};
ghost use Rattle.script_parse.specs.Whole.{IsMisfit, IsWhole};

use crate::simple::simple_statement;
use script_parse_terms::{
    ReadError, behind as behind_word, close, expression, name, over, too_deep, unexpected, want,
};
use script_tree::{Fixed, Lexeme, Lexemes, Stmt, Symbol};
use std::alloc::Global;

/// The first word of a statement with a block.
#[derive(Clone, Copy)]
pub enum BlockWord {
    If,
    While,
    For,
}

/// Whether a statement begins here.
fn starts(ts: Lexemes) -> bool
    ensures { result ≡ starts_stmt ts.now }
{
    match ts {
        [] => false,
        [first, ..] => starts_with(first),
    }
}

fn starts_with(token: &Lexeme) -> bool
    ensures { result ≡ begins (stmt_after token.now) }
{
    match token {
        Lexeme::Name(_) | Lexeme::Symbol(Symbol::Verb(_)) => true,
        Lexeme::Symbol(Symbol::Fixed(word)) => is_first(*word),
        Lexeme::Int(_) | Lexeme::Text(_) | Lexeme::Symbol(_) | Lexeme::Bad => false,
    }
}

/// Whether a statement begins with this word.
fn is_first(word: Fixed) -> bool
    ensures { result ≡ begins (stmt_fixed word) }
{
    matches!(
        word,
        Fixed::Let
            | Fixed::Own
            | Fixed::Attr
            | Fixed::If
            | Fixed::While
            | Fixed::For
            | Fixed::Create
            | Fixed::Remove
            | Fixed::Priority
            | Fixed::Attach
            | Fixed::Detach
            | Fixed::Mask
            | Fixed::Unmask
            | Fixed::Fire
            | Fixed::Null
            | Fixed::Timer
            | Fixed::Bind
            | Fixed::Usage
            | Fixed::Call
            | Fixed::Rollback
    )
}

/// As many statements as come, and what follows them. The list has room for no more.
#[cycle(stmts)]
#[tactic(auto, using(crate::proofs::Steps::more_stmts))]
pub fn statements(alloc: Global, ts: Lexemes, depth: u32) -> Result<(Vec<Stmt>, Lexemes), ReadError>
    requires { depth ≤ 64 }
    ensures { MatchResult result (λ x. TookStmts [] depth ts.now (statements_of x.0.items) (statements_fit depth (statements_of x.0.items)) x.1.now) (λ e. FailStmts depth ts.now e) }
{
    if !starts(ts) {
        return Ok((Vec::new(alloc), ts));
    }
    let (first, mut rest) = statement(alloc, ts, depth)?;
    let mut list = vec![in alloc; first]?;
    'more: while starts(rest) {
        let (next, behind) = statement(alloc, rest, depth)?;
        list.push(next)?;
        rest = behind;
    }
    list.shrink_to_fit();
    Ok((list, rest))
}

/// The word with which a statement with a block begins, and what follows it.
fn block_word(ts: Lexemes) -> Option<(BlockWord, Lexemes)>
    ensures { ReadsFirst (block_word_in ts.now) ts.now result }
{
    let [first, rest @ ..] = ts else {
        return None;
    };
    let word = block_word_of(first)?;
    Some((word, rest))
}

fn block_word_of(token: &Lexeme) -> Option<BlockWord>
    ensures { result ≡ block_word_at token.now }
{
    match token {
        Lexeme::Symbol(Symbol::Fixed(Fixed::If)) => Some(BlockWord::If),
        Lexeme::Symbol(Symbol::Fixed(Fixed::While)) => Some(BlockWord::While),
        Lexeme::Symbol(Symbol::Fixed(Fixed::For)) => Some(BlockWord::For),
        _ => None,
    }
}

/// A statement, and what follows it.
#[cycle(stmts)]
fn statement(alloc: Global, ts: Lexemes, depth: u32) -> Result<(Stmt, Lexemes), ReadError>
    requires { depth ≤ 64 }
    ensures { ReadsStatement depth ts.now result }
{
    let Some((word, behind)) = block_word(ts) else {
        return simple_statement(alloc, ts, depth);
    };
    match word {
        BlockWord::If => branch(alloc, ts, behind, depth),
        BlockWord::While => repeat(alloc, ts, behind, depth),
        BlockWord::For => walk(alloc, ts, behind, depth),
    }
}

/// `if e { .. } else { .. }`
#[cycle(stmts)]
#[tactic(auto, using(crate::proofs::Steps::more_else))]
fn branch<'a>(
    alloc: Global,
    ts: Lexemes<'a>,
    behind: Lexemes<'a>,
    depth: u32,
) -> Result<(Stmt, Lexemes<'a>), ReadError>
    requires deep { depth ≤ 64 }
    requires begun { Begun AStmt (fixed Fixed.If) depth ts.now behind.now }
    ensures { ReadsStatement depth ts.now result }
{
    let (test, rest) = expression(alloc, behind, depth)?;
    let (body, rest) = block(alloc, rest, depth)?;
    let Some(behind) = behind_word(rest, Fixed::Else) else {
        return Ok((Stmt::If(test, body), rest));
    };
    let (other, rest) = block(alloc, behind, depth)?;
    Ok((Stmt::IfElse(test, body, other), rest))
}

/// `while e { .. }`
#[cycle(stmts)]
fn repeat<'a>(
    alloc: Global,
    ts: Lexemes<'a>,
    behind: Lexemes<'a>,
    depth: u32,
) -> Result<(Stmt, Lexemes<'a>), ReadError>
    requires deep { depth ≤ 64 }
    requires begun { Begun AStmt (fixed Fixed.While) depth ts.now behind.now }
    ensures { ReadsStatement depth ts.now result }
{
    let (test, rest) = expression(alloc, behind, depth)?;
    let (body, rest) = block(alloc, rest, depth)?;
    Ok((Stmt::While(test, body), rest))
}

/// `for NAME in RELATION { .. }`
#[cycle(stmts)]
fn walk<'a>(
    alloc: Global,
    ts: Lexemes<'a>,
    behind: Lexemes<'a>,
    depth: u32,
) -> Result<(Stmt, Lexemes<'a>), ReadError>
    requires deep { depth ≤ 64 }
    requires begun { Begun AStmt (fixed Fixed.For) depth ts.now behind.now }
    ensures { ReadsStatement depth ts.now result }
{
    let (name, rest) = name(alloc, behind, depth)?;
    let rest = want(rest, Fixed::In, depth)?;
    let (over, rest) = over(alloc, rest, depth)?;
    let (body, rest) = block(alloc, rest, depth)?;
    Ok((Stmt::For(name, over, body), rest))
}

/// Statements in braces, and what follows them.
#[cycle(stmts)]
#[tactic(auto, using(script_parse_terms::proofs::Machine::made, crate::proofs::Steps::block_opens))]
fn block(alloc: Global, ts: Lexemes, depth: u32) -> Result<(Vec<Stmt>, Lexemes), ReadError>
    requires { depth ≤ 64 }
    ensures { MatchResult result (λ x. TookBlock depth ts.now (statements_of x.0.items) (statements_fit (depth + 1) (statements_of x.0.items)) x.1.now) (λ e. FailsBlock depth ts.now e) }
{
    let Some(inner) = behind_word(ts, Fixed::OpenCurly) else {
        return Err(unexpected(ts));
    };
    if depth == 64 {
        return Err(too_deep(ts));
    }
    let (body, rest) = statements(alloc, inner, depth + 1)?;
    let rest = close(rest, Fixed::CloseCurly, depth)?;
    Ok((body, rest))
}

/// The statements of the script that tokens are.
#[tactic(auto, using(crate::proofs::Whole::script_fine, crate::proofs::Whole::script_left, crate::proofs::Whole::script_fails))]
pub fn script(alloc: Global, ts: Lexemes) -> Result<Vec<Stmt>, ReadError>
    ensures { MatchResult result (λ x. IsWhole ts.now (statements_of x.items)) (IsMisfit (script_of ts.now)) }
{
    let (list, rest) = statements(alloc, ts, 0)?;
    if !rest.is_empty() {
        return Err(unexpected(rest));
    }
    Ok(list)
}
