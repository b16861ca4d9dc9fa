//! Lists of expressions: the arguments of a call, and the fields of an event that is fired.
ghost use Rattle.std.specs.Prelude.{◌≤◌, ◌<◌, ◌+◌, ◌∷◌, ◌++◌, ◌&&◌, [], map, MatchResult};
ghost use Rattle.std.specs.List.{list_all};
ghost use Rattle.script_tree.specs.Grammar as g;
ghost use Rattle.script_tree.specs.Grammar.{Arguments, One, Level, Make, WithArgument, NextArgument, MoreFields, NextField, WithField};
ghost use Rattle.script_tree.specs.Spelling.{fixed, spell_arguments, spell_fields, fits, field_fits};
ghost use Rattle.script_tree.specs.Tree.{tree_of, field_of};
ghost use Rattle.script_parse_terms.specs.Reads.{ReadsAll, ReadsMore};
ghost use Rattle.script_parse_terms.specs.Takes.{FailsAll};
ghost use Rattle.script_parse_terms.specs.Lists.{TookField, has_some, spell_list, with_arguments, with_fields};

use crate::levels::expression;
use crate::refusal::{ReadError, too_deep};
use crate::take::{behind as behind_word, close, name, want};
use script_tree::{Expr, FieldValue, Fixed, Lexemes};
use std::alloc::Global;

/// The arguments of a call, and the bracket behind them.
#[tactic(auto, using(crate::proofs::ListSteps::first_argument))]
pub fn arguments(alloc: Global, ts: Lexemes, depth: u32) -> Result<(Vec<Expr>, Lexemes), ReadError>
    requires { depth < 64 }
    ensures { ReadsAll (Arguments ∷ One Fixed.CloseRound ∷ []) (λ list. spell_arguments (map tree_of list.items) ++ fixed Fixed.CloseRound ∷ []) (λ list. with_arguments (map tree_of list.items)) (λ list. list_all (fits (depth + 1)) (map tree_of list.items)) (depth + 1) depth ts.now result }
{
    let Some(after) = behind_word(ts, Fixed::CloseRound) else {
        let (list, rest) = argument_list(alloc, ts, depth + 1)?;
        let last = close(rest, Fixed::CloseRound, depth)?;
        return Ok((list, last));
    };
    Ok((Vec::new(alloc), after))
}

/// An argument and more of them, each behind a comma.
#[tactic(auto, using(crate::proofs::ListSteps::more_next_argument))]
fn argument_list(alloc: Global, ts: Lexemes, depth: u32) -> Result<(Vec<Expr>, Lexemes), ReadError>
    requires { depth ≤ 64 }
    ensures { ReadsAll (Level 8 ∷ Make WithArgument ∷ NextArgument ∷ []) (λ list. spell_arguments (map tree_of list.items)) (λ list. with_arguments (map tree_of list.items)) (λ list. has_some (map tree_of list.items) && list_all (fits depth) (map tree_of list.items)) depth depth ts.now result }
{
    let (first, mut rest) = expression(alloc, ts, depth)?;
    let mut list = Vec::new(alloc);
    list.push(first)?;
    'more: while let Some(behind) = behind_word(rest, Fixed::Comma) {
        let (next, after) = expression(alloc, behind, depth)?;
        list.push(next)?;
        rest = after;
    }
    Ok((list, rest))
}

/// `{ NAME: e, .. }`, where it comes.
#[tactic(auto, using(crate::proofs::ListSteps::more_fields))]
pub fn fields(
    alloc: Global,
    ts: Lexemes,
    depth: u32,
) -> Result<(Vec<FieldValue>, Lexemes), ReadError>
    requires { depth ≤ 64 }
    ensures { ReadsMore MoreFields (λ list. spell_fields (map field_of list.items)) (λ list. with_fields (map field_of list.items)) (λ list. list_all (field_fits (depth + 1)) (map field_of list.items)) depth ts.now result }
{
    let Some(inner) = behind_word(ts, Fixed::OpenCurly) else {
        return Ok((Vec::new(alloc), ts));
    };
    if depth == 64 {
        return Err(too_deep(ts));
    }
    let (list, rest) = field_list(alloc, inner, depth + 1)?;
    let last = close(rest, Fixed::CloseCurly, depth)?;
    Ok((list, last))
}

/// A field and more of them, each behind a comma.
#[tactic(auto, using(crate::proofs::ListSteps::more_next_field))]
fn field_list(
    alloc: Global,
    ts: Lexemes,
    depth: u32,
) -> Result<(Vec<FieldValue>, Lexemes), ReadError>
    requires { depth ≤ 64 }
    ensures { ReadsAll (g.Name ∷ One Fixed.Colon ∷ Level 8 ∷ Make WithField ∷ NextField ∷ []) (λ list. spell_list (map field_of list.items)) (λ list. with_fields (map field_of list.items)) (λ list. has_some (map field_of list.items) && list_all (field_fits depth) (map field_of list.items)) depth depth ts.now result }
{
    let (first, mut rest) = field(alloc, ts, depth)?;
    let mut list = Vec::new(alloc);
    list.push(first)?;
    'more: while let Some(behind) = behind_word(rest, Fixed::Comma) {
        let (next, after) = field(alloc, behind, depth)?;
        list.push(next)?;
        rest = after;
    }
    Ok((list, rest))
}

/// `NAME: e`
fn field(alloc: Global, ts: Lexemes, depth: u32) -> Result<(FieldValue, Lexemes), ReadError>
    requires { depth ≤ 64 }
    ensures { MatchResult result (λ x. TookField depth ts.now (field_of x.0) (field_fits depth (field_of x.0)) x.1.now) (λ e. FailsAll (g.Name ∷ One Fixed.Colon ∷ Level 8 ∷ Make WithField ∷ []) depth ts.now e) }
{
    let (name, rest) = name(alloc, ts, depth)?;
    let rest = want(rest, Fixed::Colon, depth)?;
    let (value, rest) = expression(alloc, rest, depth)?;
    Ok((FieldValue { name, value }, rest))
}
