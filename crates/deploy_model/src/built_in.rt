//! The events that no deployment declares, as those are looked up that one does.
ghost use Rattle.std.specs.Prelude.{◌≡◌, Option};
ghost use Rattle.deploy_model.specs.Tables.{is_built_in as built_in_so, built_in_field as built_in_field_so};

use built_in_events::BuiltInEvent;
use slee_value::Kind;

/// Whether an event is built in.
#[tactic(auto, using(crate::proofs::BuiltInLemmas::built_in_named))]
pub fn is_built_in(event: &str) -> bool
    ensures { result ≡ built_in_so event.now }
{
    BuiltInEvent::named(event.as_bytes()).is_some()
}

/// The type of a field of a built-in event.
#[tactic(auto, using(crate::proofs::BuiltInLemmas::built_in_field_named))]
pub fn built_in_field(event: &str, field: &str) -> Option<Kind>
    ensures { result ≡ built_in_field_so event.now field.now }
{
    let event = BuiltInEvent::named(event.as_bytes())?;
    event.kind_of_field(field)
}
