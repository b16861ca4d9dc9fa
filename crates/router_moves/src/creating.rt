//! New entities get the fields of their blocks.
ghost use Rattle.std.specs.Prelude.{◌≡◌, ◌∷◌, [], OnOk, map};
ghost use Rattle.router_state.specs.Changes.{after_changes};
ghost use Rattle.router_steps.specs.Creating.{first_fields};
ghost use Rattle.router_steps.specs.Values.{unset};
ghost use Rattle.router_draft.specs.Drafts.{laid, CanBeMade};
ghost use Rattle.router_moves.specs.Cuts.{first_set};

use crate::Setting;
use router_draft::{Base, Draft, change};
use router_state::Change;
use script_types::FieldCode;
use slee_value::{ActivityId, EntityId, Kind, NoMemory, Text, TimerId, Value};
use std::alloc::Global;

/// The value with which a field starts.
fn unset(alloc: Global, kind: Kind) -> Value
    ensures { result ≡ unset kind }
{
    match kind {
        Kind::Int => Value::Int(0),
        Kind::Text => Value::Text(Text::from(String::new(alloc))),
        Kind::Bool => Value::Bool(false),
        Kind::Activity => Value::Activity(ActivityId(0)),
        Kind::Timer => Value::Timer(TimerId(0)),
    }
}

/// A new entity's field.
fn set_first<B: Base>(
    alloc: Global,
    base: &B,
    draft: &mut Draft,
    entity: EntityId,
    field: &FieldCode,
) -> Result<(), NoMemory>
    requires made { CanBeMade (B.state base.now) draft.old }
    ensures state { OnOk result (laid (B.state base.now) draft.new ≡ after_changes (first_set entity.0 field.now ∷ []) (laid (B.state base.now) draft.old)) }
    ensures lines { OnOk result (draft.new.lines ≡ draft.old.lines) }
    ensures made { OnOk result (CanBeMade (B.state base.now) draft.new) }
{
    let value = unset(alloc, field.kind);
    let field = field.name.copy(alloc)?;
    change(
        base,
        draft,
        Change::SetField {
            entity,
            field,
            value,
        },
    )?;
    Ok(())
}

/// A new entity's fields.
#[tactic(auto, using(crate::proofs::CreatingLemmas::one_set))]
fn set_all<B: Base>(
    alloc: Global,
    base: &B,
    draft: &mut Draft,
    entity: EntityId,
    fields: &[FieldCode],
) -> Result<(), NoMemory>
    requires made { CanBeMade (B.state base.now) draft.old }
    ensures state { OnOk result (laid (B.state base.now) draft.new ≡ after_changes (map (first_set entity.0) fields.now) (laid (B.state base.now) draft.old)) }
    ensures lines { OnOk result (draft.new.lines ≡ draft.old.lines) }
    ensures made { OnOk result (CanBeMade (B.state base.now) draft.new) }
{
    'fields: for field in fields {
        set_first(alloc, base, draft, entity, field)?;
    }
    Ok(())
}

/// A new entity gets the fields of its block.
#[tactic(auto, using(crate::proofs::CreatingLemmas::fields_laid))]
pub fn set_first_fields<S: Setting>(
    alloc: Global,
    setting: &S,
    draft: &mut Draft,
    entity: EntityId,
    block: u32,
) -> Result<(), NoMemory>
    requires made { CanBeMade (S.state setting.now) draft.old }
    ensures state { OnOk result (laid (S.state setting.now) draft.new ≡ after_changes (first_fields (laid (S.state setting.now) draft.old) block entity.0) (laid (S.state setting.now) draft.old)) }
    ensures lines { OnOk result (draft.new.lines ≡ draft.old.lines) }
    ensures made { OnOk result (CanBeMade (S.state setting.now) draft.new) }
{
    set_all(alloc, setting, draft, entity, setting.fields(block))?;
    Ok(())
}
