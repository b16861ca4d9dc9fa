//! Values that suit what is declared.
ghost use Rattle.std.specs.Prelude.{◌≡◌};
ghost use Rattle.slee_value.specs.Kinds.{kind_of};
ghost use Rattle.script_meaning.specs.Same.{same_kind};
ghost use Rattle.router_state.specs.Fits.{is_i64, is_of_kind, is_text, is_value};
ghost use Rattle.router_steps.specs.Applying.{suits};
ghost use Rattle.router_steps.specs.Effects.{plain};
ghost use Rattle.router_draft.specs.Drafts.{laid, IsLow};

use router_draft::{Base, Draft, reading};
use slee_effect::Val;
use slee_value::{Kind, Text, Value};

/// The first number of bytes that no text has.
const TEXT_ROOM: u64 = 4_294_967_296;

/// Whether two kinds are the same.
fn same_kind(one: Kind, other: Kind) -> bool
    ensures { result ≡ same_kind one other }
{
    match (one, other) {
        (Kind::Int, Kind::Int) => true,
        (Kind::Text, Kind::Text) => true,
        (Kind::Bool, Kind::Bool) => true,
        (Kind::Activity, Kind::Activity) => true,
        (Kind::Timer, Kind::Timer) => true,
        _ => false,
    }
}

/// The kind of a resolved effect's value.
fn kind_of(value: &Val) -> Kind
    ensures { result ≡ kind_of (plain value.now) }
{
    match value {
        Val::Plain(value) => value.kind(),
        Val::NewActivity(_) => Kind::Activity,
        Val::NewTimer(_) => Kind::Timer,
    }
}

/// Whether the text is one of those that are written.
#[tactic(auto, using(crate::proofs::ApplyingLemmas::text_fits))]
pub(crate) fn is_text(text: &Text) -> bool
    ensures { result ≡ is_text text.now }
{
    (text.len() as u64) < TEXT_ROOM
}

/// Each number of 64 bits with a sign is a value.
#[tactic(auto, using(crate::proofs::SignedLemmas::number_fits))]
fn is_int(_number: i64) -> bool
    ensures { result ≡ is_i64 _number }
{
    true
}

/// Whether the value fits, and what it names was there once.
fn is_fit<B: Base>(base: &B, draft: &Draft, value: &Value) -> bool
    requires { IsLow (B.state base.now) }
    ensures { result ≡ is_value (laid (B.state base.now) draft.now).next_activity (laid (B.state base.now) draft.now).next_timer value.now }
{
    match value {
        Value::Int(number) => is_int(*number),
        Value::Text(text) => is_text(text),
        Value::Bool(_) => true,
        Value::Activity(activity) => activity.0 < reading::next_activity(base, draft).0,
        Value::Timer(timer) => timer.0 < reading::next_timer(base, draft).0,
    }
}

/// The same of a resolved effect's value.
pub(crate) fn is_value<B: Base>(base: &B, draft: &Draft, value: &Val) -> bool
    requires { IsLow (B.state base.now) }
    ensures { result ≡ is_value (laid (B.state base.now) draft.now).next_activity (laid (B.state base.now) draft.now).next_timer (plain value.now) }
{
    match value {
        Val::Plain(value) => is_fit(base, draft, value),
        Val::NewActivity(_) => 0 < reading::next_activity(base, draft).0,
        Val::NewTimer(_) => 0 < reading::next_timer(base, draft).0,
    }
}

/// Whether a resolved effect's value is of this kind.
pub(crate) fn is_of_kind(kind: Kind, value: &Val) -> bool
    ensures { result ≡ is_of_kind kind (plain value.now) }
{
    same_kind(kind, kind_of(value))
}

/// Whether the value fits, and is of this kind.
pub(crate) fn suits<B: Base>(base: &B, draft: &Draft, value: &Val, kind: Kind) -> bool
    requires { IsLow (B.state base.now) }
    ensures { result ≡ suits (laid (B.state base.now) draft.now) value.now kind }
{
    is_of_kind(kind, value) && is_value(base, draft, value)
}
