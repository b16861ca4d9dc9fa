//! Commands: a verb and its expression, `usage`, and `rollback`.
ghost use Rattle.std.specs.Prelude.{◌≢◌, ◌≤◌, Err};
ghost use Rattle.script_tree.specs.declared.symbol.Symbol.TheVariants as s;
ghost use Rattle.script_tree.specs.declared.lexeme.Lexeme.TheVariants as t;
ghost use Rattle.script_tree.specs.Grammar.{Stmt as AStmt};
ghost use Rattle.script_tree.specs.Spelling.{fixed};
ghost use Rattle.script_parse.specs.Reads.{ReadsStatement};
ghost use Rattle.script_parse_terms.specs.Takes.{Begun};

use script_parse_terms::{ReadError, before, name, want};
use script_tree::{Fixed, Lexemes, Stmt, Verb};
use std::alloc::Global;

/// `emit e;` and its kin
pub fn verb<'a>(
    alloc: Global,
    ts: Lexemes<'a>,
    verb: Verb,
    behind: Lexemes<'a>,
    depth: u32,
) -> Result<(Stmt, Lexemes<'a>), ReadError>
    requires deep { depth ≤ 64 }
    requires begun { Begun AStmt (t.Symbol (s.Verb verb)) depth ts.now behind.now }
    ensures { ReadsStatement depth ts.now result }
{
    let (e, rest) = before(alloc, behind, Fixed::Semicolon, depth)?;
    Ok((Stmt::Do(verb, e), rest))
}

/// `usage NAME e;`
pub fn usage<'a>(
    alloc: Global,
    ts: Lexemes<'a>,
    behind: Lexemes<'a>,
    depth: u32,
) -> Result<(Stmt, Lexemes<'a>), ReadError>
    requires deep { depth ≤ 64 }
    requires begun { Begun AStmt (fixed Fixed.Usage) depth ts.now behind.now }
    ensures { ReadsStatement depth ts.now result }
{
    let (name, rest) = name(alloc, behind, depth)?;
    let (e, rest) = before(alloc, rest, Fixed::Semicolon, depth)?;
    Ok((Stmt::Usage(name, e), rest))
}

/// `rollback;`
#[tactic(auto, using(script_parse_terms::proofs::Machine::made))]
pub fn rollback<'a>(
    ts: Lexemes<'a>,
    behind: Lexemes<'a>,
    depth: u32,
) -> Result<(Stmt, Lexemes<'a>), ReadError>
    requires deep { depth ≤ 64 }
    requires begun { Begun AStmt (fixed Fixed.Rollback) depth ts.now behind.now }
    ensures read { ReadsStatement depth ts.now result }
    ensures memory { result ≢ Err ReadError.NoMemory }
{
    let rest = want(behind, Fixed::Semicolon, depth)?;
    Ok((Stmt::Rollback, rest))
}
