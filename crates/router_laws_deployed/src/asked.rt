//! What the router asks of deployments.
ghost use Rattle.std.specs.Prelude.{◌≡◌, true, ℕ, List, Ok, Some};
ghost use Rattle.script_types.specs.declared.codes.RelationCode.{RelationCode};
ghost use Rattle.deploy_model.specs.Deployed.{relation_of};
ghost use Rattle.router_state.specs.Fits.{is_priority};
ghost use Rattle.deploy_model.specs.Resolving.{deployed_of};
ghost use Rattle.deploy_model.specs.declared.parts.Parts.{Parts};
ghost use Rattle.deploy_json.specs.Reading.{parts_of};
ghost use Rattle.deploy_json.specs.Rows.{parts_row};
ghost use Rattle.router_laws_sound.specs.Rooms.{IsDeployed};

/// Every deployment that was read is as the router asks: no declared event has the name of one that is built in, what is masked
/// where an entity is attached are events, the fields of a block rise, and the priorities of services lie in their range.
pub fn deployments_are_as_asked()
    ensures { (bytes : List ℕ) (parts : Parts) → parts_of bytes ≡ Ok (parts_row parts) → IsDeployed (deployed_of parts) }
{}

/// The priorities that relations give to new children lie in their range in every deployment that was read.
pub fn priorities_of_relations_lie_in_their_range()
    ensures { (bytes : List ℕ) (parts : Parts) → parts_of bytes ≡ Ok (parts_row parts) → (n : ℕ) (name : List ℕ) (r : RelationCode) → relation_of (deployed_of parts) n name ≡ Some r → is_priority r.priority ≡ true }
{}
