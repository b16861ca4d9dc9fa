//! The order of what a deployment declares.
ghost use Rattle.std.specs.Prelude.{◌≡◌, ◌&&◌, true, ℕ, List, map, Ok};
ghost use Rattle.std.specs.List.{list_all};
ghost use Rattle.slee_value.specs.Order.{is_below, rises};
ghost use Rattle.rows_sorted.specs.Orders.{rises_by};
ghost use Rattle.script_types.specs.declared.codes.EventCode.{EventCode};
ghost use Rattle.script_types.specs.declared.codes.FieldCode.{FieldCode};
ghost use Rattle.deploy_model.specs.Deployed.{DeployedProfile, block_fields};
ghost use Rattle.deploy_model.specs.Resolving.{deployed_of};
ghost use Rattle.deploy_model.specs.declared.parts.Parts.{Parts};
ghost use Rattle.deploy_json.specs.Reading.{parts_of};
ghost use Rattle.deploy_json.specs.Rows.{parts_row};

/// In every deployment that was read, the fields of each declared event rise by their names in byte order, and so do the attributes
/// of each profile and the fields of each block: what a JSON object has stands in that order once it is read.
pub fn declared_fields_rise()
    ensures declared { (bytes : List ℕ) (parts : Parts) → parts_of bytes ≡ Ok (parts_row parts) → (list_all (λ (e : EventCode). rises (map (λ (f : FieldCode). f.name) e.fields)) (deployed_of parts).events && list_all (λ (p : DeployedProfile). rises (map (λ (f : FieldCode). f.name) p.attributes)) (deployed_of parts).profiles) ≡ true }
    ensures blocks { (bytes : List ℕ) (parts : Parts) → parts_of bytes ≡ Ok (parts_row parts) → (n : ℕ) → rises_by (λ (x y : FieldCode). is_below x.name y.name) (block_fields (deployed_of parts) n) ≡ true }
{}
