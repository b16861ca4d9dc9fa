//! `call`: a method of a child with its arguments, and the name for what it returns.
ghost use Rattle.std.specs.Prelude.{◌≤◌, ◌∷◌, ◌++◌, []};
ghost use Rattle.script_tree.specs.Grammar.{Stmt as AStmt, MoreResult, One};
ghost use Rattle.script_tree.specs.Spelling.{fixed, spell_result, option_fits};
ghost use Rattle.script_parse.specs.Reads.{ReadsStatement};
ghost use Rattle.script_parse_terms.specs.Reads.{ReadsAll, ReadsMore};
ghost use Rattle.script_parse_terms.specs.Takes.{Begun};
ghost use Rattle.script_parse.specs.Options.{result_set};
ghost use Rattle.script_tree.specs.Words.{is_identifier};

use script_parse_terms::{ReadError, arguments, behind as behind_word, name, open, want};
use script_tree::{EntityStmt, Fixed, Identifier, Lexemes, Stmt};
use std::alloc::Global;

/// `call CHILD.METHOD(e, ..) as NAME;`
#[tactic(auto, using(script_parse_terms::proofs::Machine::made))]
pub fn call<'a>(
    alloc: Global,
    ts: Lexemes<'a>,
    behind: Lexemes<'a>,
    depth: u32,
) -> Result<(Stmt, Lexemes<'a>), ReadError>
    requires deep { depth ≤ 64 }
    requires begun { Begun AStmt (fixed Fixed.Call) depth ts.now behind.now }
    ensures { ReadsStatement depth ts.now result }
{
    let (child, rest) = name(alloc, behind, depth)?;
    let rest = want(rest, Fixed::Dot, depth)?;
    let (method, rest) = name(alloc, rest, depth)?;
    let inner = open(rest, Fixed::OpenRound, depth)?;
    let (list, rest) = arguments(alloc, inner, depth)?;
    let (result, rest) = ending(alloc, rest, depth)?;
    Ok((
        Stmt::Entity(EntityStmt::Call(child, method, list, result)),
        rest,
    ))
}

/// `as NAME`, where it comes, and `;`.
fn ending(
    alloc: Global,
    ts: Lexemes,
    depth: u32,
) -> Result<(Option<Identifier>, Lexemes), ReadError>
    requires { depth ≤ 64 }
    ensures { ReadsAll (MoreResult ∷ One Fixed.Semicolon ∷ []) (λ name. spell_result name ++ fixed Fixed.Semicolon ∷ []) result_set (option_fits is_identifier) depth depth ts.now result }
{
    let (result, rest) = returned(alloc, ts, depth)?;
    let rest = want(rest, Fixed::Semicolon, depth)?;
    Ok((result, rest))
}

/// `as NAME`, where it comes.
#[tactic(auto, using(crate::proofs::Options::more_result))]
fn returned(
    alloc: Global,
    ts: Lexemes,
    depth: u32,
) -> Result<(Option<Identifier>, Lexemes), ReadError>
    requires { depth ≤ 64 }
    ensures { ReadsMore MoreResult spell_result result_set (option_fits is_identifier) depth ts.now result }
{
    let Some(behind) = behind_word(ts, Fixed::As) else {
        return Ok((None, ts));
    };
    let (result, rest) = name(alloc, behind, depth)?;
    Ok((Some(result), rest))
}
