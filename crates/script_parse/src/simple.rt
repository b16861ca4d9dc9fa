//! Simple statements, those that hold no block, chosen by their first word.
ghost use Rattle.std.specs.Prelude.{◌≡◌, ◌≤◌, ◌∷◌, false};
ghost use Rattle.script_tree.specs.declared.symbol.Symbol.TheVariants as s;
ghost use Rattle.script_tree.specs.declared.lexeme.Lexeme.TheVariants as t;
ghost use Rattle.script_parse.specs.Reads.{ReadsStatement};
ghost use Rattle.script_parse.specs.Simple.{has_block, starts_block};

use crate::calls::call;
use crate::events::fire;
use crate::timers::timer;
use crate::{activities, assignments, commands, entities};
use script_parse_terms::{ReadError, unexpected};
use script_tree::{Fixed, Lexeme, Lexemes, Stmt, Symbol};
use std::alloc::Global;

/// A statement without a block, and what follows it.
#[tactic(auto, unfolding(script_tree::specs::Grammar::verdict))]
pub fn simple_statement(
    alloc: Global,
    ts: Lexemes,
    depth: u32,
) -> Result<(Stmt, Lexemes), ReadError>
    requires deep { depth ≤ 64 }
    requires simple { starts_block ts.now ≡ false }
    ensures { ReadsStatement depth ts.now result }
{
    let [first, behind @ ..] = ts else {
        return Err(unexpected(ts));
    };
    match first {
        Lexeme::Name(name) => assignments::variable(alloc, ts, name, behind, depth),
        Lexeme::Symbol(Symbol::Verb(verb)) => commands::verb(alloc, ts, *verb, behind, depth),
        Lexeme::Symbol(Symbol::Fixed(word)) => worded(alloc, ts, *word, behind, depth),
        Lexeme::Int(_) | Lexeme::Text(_) | Lexeme::Symbol(_) | Lexeme::Bad => Err(unexpected(ts)),
    }
}

/// A statement that begins with a word.
fn worded<'a>(
    alloc: Global,
    ts: Lexemes<'a>,
    word: Fixed,
    behind: Lexemes<'a>,
    depth: u32,
) -> Result<(Stmt, Lexemes<'a>), ReadError>
    requires deep { depth ≤ 64 }
    requires first { ts.now ≡ t.Symbol (s.Fixed word) ∷ behind.now }
    requires simple { has_block word ≡ false }
    ensures { ReadsStatement depth ts.now result }
{
    match word {
        Fixed::Let => assignments::new_variable(alloc, ts, behind, depth),
        Fixed::Own => assignments::field(alloc, ts, behind, depth),
        Fixed::Attr => assignments::attribute(alloc, ts, behind, depth),
        Fixed::Create => entities::create(alloc, ts, behind, depth),
        Fixed::Remove => entities::remove(alloc, ts, behind, depth),
        Fixed::Priority => entities::priority(alloc, ts, behind, depth),
        Fixed::Call => call(alloc, ts, behind, depth),
        Fixed::Attach => activities::attach(alloc, ts, behind, depth),
        Fixed::Detach => activities::detach(alloc, ts, behind, depth),
        Fixed::Mask => activities::mask(alloc, ts, behind, depth),
        Fixed::Unmask => activities::unmask(alloc, ts, behind, depth),
        Fixed::Fire => fire(alloc, ts, behind, depth),
        Fixed::Null => activities::null(alloc, ts, behind, depth),
        Fixed::Bind => activities::bind(alloc, ts, behind, depth),
        Fixed::Timer => timer(alloc, ts, behind, depth),
        Fixed::Usage => commands::usage(alloc, ts, behind, depth),
        Fixed::Rollback => commands::rollback(ts, behind, depth),
        _ => Err(unexpected(ts)),
    }
}
