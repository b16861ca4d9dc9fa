//! `fire`: an event, the service that receives it, and its fields.
ghost use Rattle.std.specs.Prelude.{◌≤◌};
ghost use Rattle.script_tree.specs.Grammar.{Stmt as AStmt, MoreService};
ghost use Rattle.script_tree.specs.Spelling.{fixed, spell_service, option_fits};
ghost use Rattle.script_parse.specs.Reads.{ReadsStatement};
ghost use Rattle.script_parse_terms.specs.Reads.{ReadsMore};
ghost use Rattle.script_parse_terms.specs.Takes.{Begun};
ghost use Rattle.script_parse.specs.Options.{with_service};
ghost use Rattle.script_tree.specs.Words.{is_literal};

use script_parse_terms::{ReadError, behind as behind_word, expression, fields, text, want};
use script_tree::{ActivityStmt, Fixed, Lexemes, Literal, Stmt};
use std::alloc::Global;

/// `fire TEXT on a for TEXT { NAME: e, .. };`
#[tactic(auto, using(script_parse_terms::proofs::Machine::made))]
pub fn fire<'a>(
    alloc: Global,
    ts: Lexemes<'a>,
    behind: Lexemes<'a>,
    depth: u32,
) -> Result<(Stmt, Lexemes<'a>), ReadError>
    requires deep { depth ≤ 64 }
    requires begun { Begun AStmt (fixed Fixed.Fire) depth ts.now behind.now }
    ensures { ReadsStatement depth ts.now result }
{
    let (event, rest) = text(alloc, behind, depth)?;
    let rest = want(rest, Fixed::On, depth)?;
    let (e, rest) = expression(alloc, rest, depth)?;
    let (service, rest) = service(alloc, rest, depth)?;
    let (list, rest) = fields(alloc, rest, depth)?;
    let rest = want(rest, Fixed::Semicolon, depth)?;
    Ok((
        Stmt::Activity(ActivityStmt::Fire(event, e, service, list)),
        rest,
    ))
}

/// `for TEXT`, where it comes.
#[tactic(auto, using(crate::proofs::Options::more_service))]
fn service(alloc: Global, ts: Lexemes, depth: u32) -> Result<(Option<Literal>, Lexemes), ReadError>
    requires { depth ≤ 64 }
    ensures { ReadsMore MoreService spell_service with_service (option_fits is_literal) depth ts.now result }
{
    let Some(behind) = behind_word(ts, Fixed::For) else {
        return Ok((None, ts));
    };
    let (service, rest) = text(alloc, behind, depth)?;
    Ok((Some(service), rest))
}
