//! Statements on child entities: they are created, removed and given a priority.
ghost use Rattle.std.specs.Prelude.{◌≤◌};
ghost use Rattle.script_tree.specs.Grammar.{Stmt as AStmt};
ghost use Rattle.script_tree.specs.Spelling.{fixed};
ghost use Rattle.script_parse.specs.Reads.{ReadsStatement};
ghost use Rattle.script_parse_terms.specs.Takes.{Begun};

use script_parse_terms::{ReadError, before, behind as behind_word, name, want};
use script_tree::{EntityStmt, Fixed, Lexemes, Stmt};
use std::alloc::Global;

/// `create RELATION as NAME priority e;`
#[tactic(auto, using(script_parse_terms::proofs::Machine::made, crate::proofs::Priority::skip_priority, crate::proofs::Priority::more_priority))]
pub fn create<'a>(
    alloc: Global,
    ts: Lexemes<'a>,
    behind: Lexemes<'a>,
    depth: u32,
) -> Result<(Stmt, Lexemes<'a>), ReadError>
    requires deep { depth ≤ 64 }
    requires begun { Begun AStmt (fixed Fixed.Create) depth ts.now behind.now }
    ensures { ReadsStatement depth ts.now result }
{
    let (relation, rest) = name(alloc, behind, depth)?;
    let rest = want(rest, Fixed::As, depth)?;
    let (child, rest) = name(alloc, rest, depth)?;
    let Some(behind) = behind_word(rest, Fixed::Priority) else {
        let last = want(rest, Fixed::Semicolon, depth)?;
        return Ok((
            Stmt::Entity(EntityStmt::Create(relation, child, None)),
            last,
        ));
    };
    let (e, after) = before(alloc, behind, Fixed::Semicolon, depth)?;
    Ok((
        Stmt::Entity(EntityStmt::Create(relation, child, Some(e))),
        after,
    ))
}

/// `remove NAME;`
#[tactic(auto, using(script_parse_terms::proofs::Machine::made))]
pub fn remove<'a>(
    alloc: Global,
    ts: Lexemes<'a>,
    behind: Lexemes<'a>,
    depth: u32,
) -> Result<(Stmt, Lexemes<'a>), ReadError>
    requires deep { depth ≤ 64 }
    requires begun { Begun AStmt (fixed Fixed.Remove) depth ts.now behind.now }
    ensures { ReadsStatement depth ts.now result }
{
    let (child, rest) = name(alloc, behind, depth)?;
    let rest = want(rest, Fixed::Semicolon, depth)?;
    Ok((Stmt::Entity(EntityStmt::Remove(child)), rest))
}

/// `priority NAME e;`
pub fn priority<'a>(
    alloc: Global,
    ts: Lexemes<'a>,
    behind: Lexemes<'a>,
    depth: u32,
) -> Result<(Stmt, Lexemes<'a>), ReadError>
    requires deep { depth ≤ 64 }
    requires begun { Begun AStmt (fixed Fixed.Priority) depth ts.now behind.now }
    ensures { ReadsStatement depth ts.now result }
{
    let (child, rest) = name(alloc, behind, depth)?;
    let (e, rest) = before(alloc, rest, Fixed::Semicolon, depth)?;
    Ok((Stmt::Entity(EntityStmt::Priority(child, e)), rest))
}
