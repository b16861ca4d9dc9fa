//! The tokens before a place, without whole statements that come before the one which stands there.
ghost use Rattle.std.specs.Prelude.{◌≡◌, ◌<◌, ◌≤◌, IfOk, false, true, drop, length};
ghost use Rattle.script_tree.specs.declared.symbol.Fixed.TheVariants as fixed;
ghost use Rattle.script_tree.specs.Grammar.{is_fixed};
ghost use Rattle.script_hints.specs.declared.choice.Choice.{Choice as AChoice};
ghost use Rattle.script_hints.specs.Following.{begins_anew, follows};

use script_parse::script;
use script_parse_terms::ReadError;
use script_tree::{Fixed, Lexeme, Symbol};
use slee_value::NoMemory;
use std::alloc::Global;

/// How many brackets are open behind a token, where so many are before it.
fn depth_behind(depth: usize, token: &Lexeme) -> usize {
    match token {
        Lexeme::Symbol(Symbol::Fixed(Fixed::OpenRound | Fixed::OpenCurly)) => {
            depth.saturating_add(1)
        }
        Lexeme::Symbol(Symbol::Fixed(Fixed::CloseRound | Fixed::CloseCurly)) => {
            depth.saturating_sub(1)
        }
        _ => depth,
    }
}

/// Whether statements end with such a token.
fn is_end(token: &Lexeme) -> bool {
    matches!(
        token,
        Lexeme::Symbol(Symbol::Fixed(Fixed::Semicolon | Fixed::CloseCurly))
    )
}

/// Whether a token doesn't go on with a statement behind a bracket.
fn is_anew(token: &Lexeme) -> bool
    ensures { result ≡ true → is_fixed fixed.Else token.now ≡ false }
{
    !matches!(
        token,
        Lexeme::Symbol(Symbol::Fixed(Fixed::Else | Fixed::Semicolon))
    )
}

/// Where the last statement begins of those that stand in no block, as far as brackets and ends tell.
fn last_start(tokens: &[Lexeme]) -> usize
    ensures anew { 0 < result → begins_anew (drop result tokens.now) ≡ true }
    ensures within { result ≤ length tokens.now }
{
    let mut start = 0;
    let mut depth = 0;
    let mut is_ended = false;
    for (place, token) in tokens.iter().enumerate() {
        if is_ended && depth == 0 && is_anew(token) {
            start = place;
        }
        depth = depth_behind(depth, token);
        is_ended = is_end(token);
    }
    start
}

/// As many of these tokens from the last one on as decide what may follow all of them: those of whole statements before the last
/// are left out. So a question costs no more than that statement.
#[tactic(auto, using(crate::proofs::Fronts::shorter))]
pub(crate) fn shortened<'a>(
    alloc: Global,
    tokens: Vec<Lexeme<'a>>,
) -> Result<Vec<Lexeme<'a>>, NoMemory>
    ensures { IfOk result (λ short. (y : AChoice) → follows short.items y ≡ follows tokens.entry.items y) }
{
    let mut tokens = tokens;
    let start = last_start(&tokens);
    if start == 0 {
        return Ok(tokens);
    }
    match script(alloc, &tokens[..start]) {
        Ok(_) => Ok(tokens.split_off(start)?),
        Err(ReadError::Misfit(_)) => Ok(tokens),
        Err(ReadError::NoMemory) => Err(NoMemory),
    }
}
