//! `timer`: the time at which it is due, its repetition, and what is kept of missed occurrences.
ghost use Rattle.std.specs.Prelude.{◌≡◌, ◌≢◌, ◌≤◌, ◌∷◌, [], true, Err, IfOk};
ghost use Rattle.script_tree.specs.Grammar.{Stmt as AStmt, MoreRepeat, MoreKeep, KeepWord};
ghost use Rattle.script_tree.specs.Spelling.{fixed, spell_repeat, spell_keep, keep_token, option_fits, repeat_fits};
ghost use Rattle.script_parse.specs.Reads.{ReadsStatement};
ghost use Rattle.script_parse_terms.specs.Reads.{ReadsFirst, ReadsMore};
ghost use Rattle.script_parse_terms.specs.Takes.{Begun};
ghost use Rattle.script_parse.specs.Options.{repeat_set, keep_set, keep_at, keep_in, repeat_in};
ghost use Rattle.script_tree.specs.Tree.{repeat_of, tree_of};

use script_parse_terms::{
    ReadError, behind as behind_word, boxed, boxed_before, name, unexpected, want,
};
use script_tree::{Constant, Expr, Fixed, Lexeme, Lexemes, Repeat, Stmt, Symbol, TimerStmt};
use slee_value::{Keep, NoMemory};
use std::alloc::Global;

/// `timer NAME on a at e every e times e keep ..;`
#[tactic(auto, using(script_parse_terms::proofs::Machine::made))]
pub fn timer<'a>(
    alloc: Global,
    ts: Lexemes<'a>,
    behind: Lexemes<'a>,
    depth: u32,
) -> Result<(Stmt, Lexemes<'a>), ReadError>
    requires deep { depth ≤ 64 }
    requires begun { Begun AStmt (fixed Fixed.Timer) depth ts.now behind.now }
    ensures { ReadsStatement depth ts.now result }
{
    let (name, rest) = name(alloc, behind, depth)?;
    let rest = want(rest, Fixed::On, depth)?;
    let (activity, rest) = boxed_before(alloc, rest, Fixed::At, depth)?;
    let (start, rest) = boxed(alloc, rest, depth)?;
    let (repeat, rest) = repeat(alloc, rest, depth)?;
    let (keep, rest) = keep(rest, depth)?;
    let rest = want(rest, Fixed::Semicolon, depth)?;
    let timer = TimerStmt {
        name,
        activity: Box::into_inner(activity),
        start: Box::into_inner(start),
        repeat: unboxed(repeat),
        keep,
    };
    Ok((Stmt::Timer(Box::new(alloc, timer)?), rest))
}

/// `every e times e`, where it comes.
#[tactic(auto, using(script_parse_terms::proofs::Machine::made, crate::proofs::Options::more_repeat))]
fn repeat(
    alloc: Global,
    ts: Lexemes,
    depth: u32,
) -> Result<(Option<Box<Repeat>>, Lexemes), ReadError>
    requires { depth ≤ 64 }
    ensures { ReadsMore MoreRepeat (λ r. spell_repeat (repeat_in r)) (λ r. repeat_set (repeat_in r)) (λ r. option_fits (repeat_fits depth) (repeat_in r)) depth ts.now result }
{
    let Some(behind) = behind_word(ts, Fixed::Every) else {
        return Ok((None, ts));
    };
    let (period, rest) = boxed_before(alloc, behind, Fixed::Times, depth)?;
    let (times, last) = boxed(alloc, rest, depth)?;
    let repeat = repeated(alloc, period, times)?;
    Ok((Some(repeat), last))
}

fn repeated(alloc: Global, period: Box<Expr>, times: Box<Expr>) -> Result<Box<Repeat>, NoMemory>
    ensures { IfOk result (λ r. repeat_in (Some r) ≡ Some (tree_of period.value, tree_of times.value)) }
{
    let repeat = Repeat {
        period: Box::into_inner(period),
        times: Box::into_inner(times),
    };
    Ok(Box::new(alloc, repeat)?)
}

fn unboxed(repeat: Option<Box<Repeat>>) -> Option<Repeat>
    ensures { repeat_of result ≡ repeat_in repeat }
{
    match repeat {
        Some(repeat) => Some(Box::into_inner(repeat)),
        None => None,
    }
}

/// `keep` and its word, where it comes.
#[tactic(auto, using(crate::proofs::Options::more_keep))]
fn keep(ts: Lexemes, depth: u32) -> Result<(Option<Keep>, Lexemes), ReadError>
    requires { depth ≤ 64 }
    ensures read { ReadsMore MoreKeep spell_keep keep_set (λ _. true) depth ts.now result }
    ensures memory { result ≢ Err ReadError.NoMemory }
{
    let Some(behind) = behind_word(ts, Fixed::Keep) else {
        return Ok((None, ts));
    };
    let (keep, rest) = keep_word(behind, depth)?;
    Ok((Some(keep), rest))
}

/// `all`, `last` or `none`.
fn keep_word(ts: Lexemes, depth: u32) -> Result<(Keep, Lexemes), ReadError>
    requires { depth ≤ 64 }
    ensures read { ReadsMore KeepWord (λ k. keep_token k ∷ []) (λ k. keep_set (Some k)) (λ _. true) depth ts.now result }
    ensures memory { result ≢ Err ReadError.NoMemory }
{
    let Some((keep, rest)) = keep_in(ts) else {
        return Err(unexpected(ts));
    };
    Ok((keep, rest))
}

/// The word behind `keep`, and what follows it.
fn keep_in(ts: Lexemes) -> Option<(Keep, Lexemes)>
    ensures { ReadsFirst (keep_in ts.now) ts.now result }
{
    let [first, rest @ ..] = ts else {
        return None;
    };
    let keep = keep_of(first)?;
    Some((keep, rest))
}

fn keep_of(token: &Lexeme) -> Option<Keep>
    ensures { result ≡ keep_at token.now }
{
    match token {
        Lexeme::Symbol(Symbol::Fixed(Fixed::All)) => Some(Keep::All),
        Lexeme::Symbol(Symbol::Fixed(Fixed::Last)) => Some(Keep::Last),
        Lexeme::Symbol(Symbol::Constant(Constant::Nothing)) => Some(Keep::NoneMissed),
        _ => None,
    }
}
