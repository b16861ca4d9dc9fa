//! What a deployment declares for the rows of its profile tables.
ghost use Rattle.std.specs.Prelude.{◌≡◌, [], IfOk, map, slice_get};
ghost use Rattle.std.specs.Option.{option_map_or};
ghost use Rattle.deploy_model.specs.Resolving.{deployed_of, field_of, table_of};
ghost use Rattle.deploy_model.specs.Tables.{key_number};
ghost use Rattle.router_stores.specs.TableSpecs.{spec_of, specs_of};

use deploy_model::{ProfileSpec, Table};
use profile_tables::TableSpec;
use script_types::{CodeList, FieldCode};
use slee_descriptor::Deployment;
use slee_value::{Kind, Name, NoMemory};
use std::alloc::Global;

fn fields_of(alloc: Global, attributes: &[(Name, Kind)]) -> Result<Vec<FieldCode>, NoMemory>
    ensures { IfOk result (λ v. v.items ≡ map field_of attributes.now) }
{
    let mut fields = Vec::with_capacity(alloc, attributes.len())?;
    for attribute in attributes {
        fields.push(FieldCode {
            name: attribute.0.copy(alloc)?,
            kind: attribute.1,
        })?;
    }
    Ok(fields)
}

fn names_of(alloc: Global, names: &[Name]) -> Result<Vec<Name>, NoMemory>
    ensures { IfOk result (λ v. v.items ≡ names.now) }
{
    let mut copied = Vec::with_capacity(alloc, names.len())?;
    for name in names {
        copied.push(name.copy(alloc)?)?;
    }
    Ok(copied)
}

/// What the profile specification of this number declares, nothing where there is none.
fn spec_at(alloc: Global, profiles: &[ProfileSpec], number: u32) -> Result<TableSpec, NoMemory>
    ensures attributes { IfOk result (λ spec. spec.attributes ≡ option_map_or (λ p. map field_of p.attributes) (slice_get profiles.now number) []) }
    ensures unique { IfOk result (λ spec. spec.unique ≡ option_map_or (λ p. p.unique) (slice_get profiles.now number) []) }
{
    match profiles.get(number as usize) {
        Some(profile) => Ok(TableSpec {
            attributes: CodeList::from(fields_of(alloc, profile.attributes.as_slice())?),
            unique: CodeList::from(names_of(alloc, profile.unique.as_slice())?),
        }),
        None => Ok(TableSpec {
            attributes: CodeList::new(alloc),
            unique: CodeList::new(alloc),
        }),
    }
}

/// What is declared for the rows of the table.
fn spec_of(alloc: Global, deployment: &Deployment, table: &Table) -> Result<TableSpec, NoMemory>
    ensures { IfOk result (λ spec. spec ≡ spec_of (deployed_of deployment.now.parts) (table_of (key_number (λ p. p.key) deployment.now.parts.profiles) table.now)) }
{
    let profile = deployment.profile_named(table.profile.as_str());
    let spec = spec_at(alloc, deployment.profiles(), profile.unwrap_or(0))?;
    Ok(spec)
}

/// What is declared for the rows of each table.
pub fn specs_of(alloc: Global, deployment: &Deployment) -> Result<Vec<TableSpec>, NoMemory>
    ensures { IfOk result (λ v. v.items ≡ specs_of (deployed_of deployment.now.parts)) }
{
    let tables = deployment.tables();
    let mut specs = Vec::with_capacity(alloc, tables.len())?;
    for table in tables {
        specs.push(spec_of(alloc, deployment, table)?)?;
    }
    Ok(specs)
}
