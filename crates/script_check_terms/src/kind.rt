//! Where an expression of one type serves for another. Clauses speak of each expression `x` that is `none` exactly if `nothing`
//! is true.
ghost use Rattle.std.specs.Prelude.{◌≡◌};
ghost use Rattle.script_tree.specs.Tree.{Expression, tree_of};
ghost use Rattle.script_types.specs.Elaboration.{none_of, as_kind};
ghost use Rattle.script_types.specs.ProgramOf.{term_of};
ghost use Rattle.script_types.specs.TypingExpressions.{same_kind, is_nothing, serves, alike};

use script_tree::{Constant, Expr, Leaf};
use script_types::{Atom, Term};
use slee_value::{ActivityId, Kind, TimerId, Value};

pub fn same_kind(one: Kind, other: Kind) -> bool
    ensures { result ≡ same_kind one other }
{
    match (one, other) {
        (Kind::Int, Kind::Int) => true,
        (Kind::Text, Kind::Text) => true,
        (Kind::Bool, Kind::Bool) => true,
        (Kind::Activity, Kind::Activity) => true,
        (Kind::Timer, Kind::Timer) => true,
        _ => false,
    }
}

/// Whether it is `none`, in brackets or not.
#[tactic(auto, using(crate::proofs::ChainLemmas::chain_is_something))]
pub fn is_nothing(x: &Expr) -> bool
    ensures { result ≡ is_nothing (tree_of x.now) }
{
    match x {
        Expr::Leaf(Leaf::Constant(Constant::Nothing)) => true,
        Expr::Leaf(_) | Expr::Unary(_, _) | Expr::Ask(_) => false,
        Expr::Group(inner) => is_nothing(inner),
        Expr::Chain(_, _) => false,
    }
}

/// Whether an expression of one type serves where another is asked for.
pub fn serves(nothing: bool, found: Kind, asked: Kind) -> bool
    ensures { (x : Expression) → is_nothing x ≡ nothing → result ≡ serves x found asked }
{
    same_kind(found, asked) || (nothing && same_kind(asked, Kind::Timer))
}

/// Whether this expression of one type serves where another is asked for.
pub fn expr_serves(x: &Expr, found: Kind, asked: Kind) -> bool
    ensures { result ≡ serves (tree_of x.now) found asked }
{
    serves(is_nothing(x), found, asked)
}

/// `none` as a value of that type.
pub fn none_of(kind: Kind) -> Value
    ensures { result ≡ none_of kind }
{
    match kind {
        Kind::Timer => Value::Timer(TimerId(0)),
        _ => Value::Activity(ActivityId(0)),
    }
}

/// The term of an expression where that type is asked for.
pub fn as_kind(kind: Kind, nothing: bool, term: Term) -> Term
    ensures { (x : Expression) → is_nothing x ≡ nothing → term_of result ≡ as_kind kind x (term_of term) }
{
    if nothing {
        Term::Single(Atom::Constant(none_of(kind)))
    } else {
        term
    }
}

/// The term of this expression where that type is asked for.
pub fn expr_as_kind(kind: Kind, x: &Expr, term: Term) -> Term
    ensures { term_of result ≡ as_kind kind (tree_of x.now) (term_of term) }
{
    as_kind(kind, is_nothing(x), term)
}
