//! Statements on activities: they are attached, masked, begun and bound.
ghost use Rattle.std.specs.Prelude.{◌≤◌};
ghost use Rattle.script_tree.specs.Grammar.{Stmt as AStmt};
ghost use Rattle.script_tree.specs.Spelling.{fixed};
ghost use Rattle.script_parse.specs.Reads.{ReadsStatement};
ghost use Rattle.script_parse_terms.specs.Takes.{Begun};

use script_parse_terms::{ReadError, before, boxed_before, name, text, want, who};
use script_tree::{ActivityStmt, Fixed, Lexemes, Stmt};
use std::alloc::Global;

/// `attach WHO to a;`
pub fn attach<'a>(
    alloc: Global,
    ts: Lexemes<'a>,
    behind: Lexemes<'a>,
    depth: u32,
) -> Result<(Stmt, Lexemes<'a>), ReadError>
    requires deep { depth ≤ 64 }
    requires begun { Begun AStmt (fixed Fixed.Attach) depth ts.now behind.now }
    ensures { ReadsStatement depth ts.now result }
{
    let (who, rest) = who(alloc, behind, depth)?;
    let rest = want(rest, Fixed::To, depth)?;
    let (e, rest) = before(alloc, rest, Fixed::Semicolon, depth)?;
    Ok((Stmt::Activity(ActivityStmt::Attach(who, e)), rest))
}

/// `detach WHO from a;`
pub fn detach<'a>(
    alloc: Global,
    ts: Lexemes<'a>,
    behind: Lexemes<'a>,
    depth: u32,
) -> Result<(Stmt, Lexemes<'a>), ReadError>
    requires deep { depth ≤ 64 }
    requires begun { Begun AStmt (fixed Fixed.Detach) depth ts.now behind.now }
    ensures { ReadsStatement depth ts.now result }
{
    let (who, rest) = who(alloc, behind, depth)?;
    let rest = want(rest, Fixed::From, depth)?;
    let (e, rest) = before(alloc, rest, Fixed::Semicolon, depth)?;
    Ok((Stmt::Activity(ActivityStmt::Detach(who, e)), rest))
}

/// `mask TEXT on a;`
pub fn mask<'a>(
    alloc: Global,
    ts: Lexemes<'a>,
    behind: Lexemes<'a>,
    depth: u32,
) -> Result<(Stmt, Lexemes<'a>), ReadError>
    requires deep { depth ≤ 64 }
    requires begun { Begun AStmt (fixed Fixed.Mask) depth ts.now behind.now }
    ensures { ReadsStatement depth ts.now result }
{
    let (event, rest) = text(alloc, behind, depth)?;
    let rest = want(rest, Fixed::On, depth)?;
    let (e, rest) = before(alloc, rest, Fixed::Semicolon, depth)?;
    Ok((Stmt::Activity(ActivityStmt::Mask(event, e)), rest))
}

/// `unmask TEXT on a;`
pub fn unmask<'a>(
    alloc: Global,
    ts: Lexemes<'a>,
    behind: Lexemes<'a>,
    depth: u32,
) -> Result<(Stmt, Lexemes<'a>), ReadError>
    requires deep { depth ≤ 64 }
    requires begun { Begun AStmt (fixed Fixed.Unmask) depth ts.now behind.now }
    ensures { ReadsStatement depth ts.now result }
{
    let (event, rest) = text(alloc, behind, depth)?;
    let rest = want(rest, Fixed::On, depth)?;
    let (e, rest) = before(alloc, rest, Fixed::Semicolon, depth)?;
    Ok((Stmt::Activity(ActivityStmt::Unmask(event, e)), rest))
}

/// `null as NAME;`
#[tactic(auto, using(script_parse_terms::proofs::Machine::made))]
pub fn null<'a>(
    alloc: Global,
    ts: Lexemes<'a>,
    behind: Lexemes<'a>,
    depth: u32,
) -> Result<(Stmt, Lexemes<'a>), ReadError>
    requires deep { depth ≤ 64 }
    requires begun { Begun AStmt (fixed Fixed.Null) depth ts.now behind.now }
    ensures { ReadsStatement depth ts.now result }
{
    let rest = want(behind, Fixed::As, depth)?;
    let (name, rest) = name(alloc, rest, depth)?;
    let rest = want(rest, Fixed::Semicolon, depth)?;
    Ok((Stmt::Activity(ActivityStmt::Null(name)), rest))
}

/// `bind e to a;`
pub fn bind<'a>(
    alloc: Global,
    ts: Lexemes<'a>,
    behind: Lexemes<'a>,
    depth: u32,
) -> Result<(Stmt, Lexemes<'a>), ReadError>
    requires deep { depth ≤ 64 }
    requires begun { Begun AStmt (fixed Fixed.Bind) depth ts.now behind.now }
    ensures { ReadsStatement depth ts.now result }
{
    let (key, rest) = boxed_before(alloc, behind, Fixed::To, depth)?;
    let (e, rest) = before(alloc, rest, Fixed::Semicolon, depth)?;
    Ok((
        Stmt::Activity(ActivityStmt::Bind(Box::into_inner(key), e)),
        rest,
    ))
}
