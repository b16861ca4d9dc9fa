//! Deployments. Clauses see one by its parts; what it says in words of the router is `deployed_of parts`.
ghost use Rattle.std.specs.Prelude.{◌≡◌, [], Option, IfOk, OnOk, IsTrue};
ghost use Rattle.slee_descriptor.specs.CodesOfParts.{codes_in};
ghost use Rattle.slee_descriptor.specs.Indexes.{AreIndexes, AreNumbered};
ghost use Rattle.deploy_model.specs.Deployed.{event_named as event_so, profile_named as profile_so, table_named as table_so, block_named as block_so, service_named as service_so, handlers_of};
ghost use Rattle.deploy_model.specs.Faults.{Says};
ghost use Rattle.deploy_model.specs.Resolving.{deployed_of};
ghost use Rattle.deploy_model.specs.Selecting.{starters_of};
ghost use Rattle.deploy_model.specs.Tables.{parts_fault, is_deployment};

use crate::block_coding::BlockCoding;
use crate::coding::{codes_by, named_by};
use crate::indexes::{Indexes, indexes_of};
use crate::keys::{item_number, number_at};
use crate::naming::names_of;
use crate::part_coding::{EventCoding, ServiceCoding, TableCoding};
use deploy_model::{
    Block, DeployFault, EventType, Parts, ProfileSpec, Service, Table, check_parts,
};
use script_types::{BlockSteps, CodeList, Codes};
use slee_value::{NoMemory, Text};
use std::alloc::Global;

/// A deployment. It is made once and lent to all that need it; an item's number is its place in its list, from 0.
pub struct Deployment {
    parts: Parts,
    codes: Codes,
    indexes: Indexes,
    pub ghost sound: { IsTrue (is_deployment parts) },
    ghost coded: { codes ≡ codes_in parts codes.programs },
    ghost indexed: { AreIndexes indexes (deployed_of parts) },
    ghost numbered: { AreNumbered parts },
}

impl Drop for Deployment {
    fn drop(self) {
        let Self {
            parts: _,
            codes: _,
            indexes: _,
        } = self;
    }
}

/// What scripts may name in parts, and the scripts, none of them checked.
fn codes_of(alloc: Global, parts: &Parts, indexes: &Indexes) -> Result<Codes, NoMemory>
    requires { AreIndexes indexes.now (deployed_of parts.now) }
    ensures coded { IfOk result (λ c. c ≡ codes_in parts.now c.programs) }
    ensures unchecked { IfOk result (λ c. c.programs ≡ []) }
{
    let coding = TableCoding {
        keys: &indexes.profiles,
        profiles: parts.profiles.as_slice(),
    };
    let events = named_by(alloc, &EventCoding, parts.events.as_slice())?;
    let tables = named_by(alloc, &coding, parts.tables.as_slice())?;
    let services = named_by(alloc, &ServiceCoding, parts.services.as_slice())?;
    let blocks = codes_by(
        alloc,
        &BlockCoding(&indexes.blocks),
        parts.blocks.as_slice(),
    )?;
    let names = names_of(
        alloc,
        events.as_slice(),
        tables.as_slice(),
        blocks.as_slice(),
    )?;
    Ok(Codes {
        events,
        tables,
        services,
        blocks,
        names,
        programs: CodeList::new(alloc),
    })
}

/// That the parts that scripts name have numbers. More of them find no memory.
fn check_numbers(parts: &Parts) -> Result<(), NoMemory>
    ensures { OnOk result (AreNumbered parts.now) }
{
    item_number(parts.events.as_slice().len())?;
    item_number(parts.tables.as_slice().len())?;
    item_number(parts.services.as_slice().len())?;
    Ok(())
}

impl Deployment {
    /// The deployment that parts without fault are.
    pub fn from_parts(alloc: Global, parts: Parts) -> Result<Self, NoMemory>
        requires { parts_fault parts ≡ Option.None }
        ensures same { IfOk result (λ d. d.parts ≡ parts) }
        ensures unchecked { IfOk result (λ d. d.codes.programs ≡ []) }
    {
        check_numbers(&parts)?;
        let indexes = indexes_of(alloc, &parts)?;
        let codes = codes_of(alloc, &parts, &indexes)?;
        Ok(Deployment {
            parts,
            codes,
            indexes,
        })
    }

    /// The deployment that the parts are, or the first fault that they have. The types of scripts are no matter of it.
    pub fn build(alloc: Global, parts: Parts) -> Result<Self, DeployFault>
        ensures same { IfOk result (λ d. d.parts ≡ parts) }
        ensures unchecked { IfOk result (λ d. d.codes.programs ≡ []) }
        ensures fault { Says (parts_fault parts) result }
    {
        check_parts(alloc, &parts)?;
        Ok(Deployment::from_parts(alloc, parts)?)
    }

    /// The same deployment with these checked scripts. All else that scripts may name stays, and so do the scripts.
    pub fn with_programs(mut self, programs: CodeList<BlockSteps>) -> Self
        ensures same { result.parts ≡ self.parts }
        ensures codes { result.codes ≡ record self.codes { programs = programs } }
    {
        self.codes.programs = programs;
        self
    }

    /// What scripts may name, and the scripts.
    pub fn codes(&self) -> &Codes
        ensures same { result.now ≡ self.now.codes }
        ensures parts { result.now ≡ codes_in self.now.parts self.now.codes.programs }
    {
        &self.codes
    }

    /// The event types.
    pub fn events(&self) -> &[EventType]
        ensures same { result.now ≡ self.now.parts.events }
        ensures sound { IsTrue (is_deployment self.now.parts) }
    {
        self.parts.events.as_slice()
    }

    /// The profile specifications.
    pub fn profiles(&self) -> &[ProfileSpec]
        ensures same { result.now ≡ self.now.parts.profiles }
        ensures sound { IsTrue (is_deployment self.now.parts) }
    {
        self.parts.profiles.as_slice()
    }

    /// The profile tables.
    pub fn tables(&self) -> &[Table]
        ensures same { result.now ≡ self.now.parts.tables }
        ensures sound { IsTrue (is_deployment self.now.parts) }
    {
        self.parts.tables.as_slice()
    }

    /// The blocks.
    pub fn blocks(&self) -> &[Block]
        ensures same { result.now ≡ self.now.parts.blocks }
        ensures sound { IsTrue (is_deployment self.now.parts) }
    {
        self.parts.blocks.as_slice()
    }

    /// The services.
    pub fn services(&self) -> &[Service]
        ensures same { result.now ≡ self.now.parts.services }
        ensures sound { IsTrue (is_deployment self.now.parts) }
    {
        self.parts.services.as_slice()
    }

    /// The numbers of the blocks that handle the event, rising.
    pub fn handlers(&self, event: &Text) -> &[u32]
        ensures { result.now ≡ handlers_of (deployed_of self.now.parts) event.now }
    {
        self.indexes.handlers.get(event.as_str())
    }

    /// The numbers of the services whose roots declare the event initial, in the order of selection.
    pub fn starters(&self, event: &Text) -> &[u32]
        ensures { result.now ≡ starters_of (deployed_of self.now.parts) event.now }
    {
        self.indexes.starters.get(event.as_str())
    }

    /// The number of the declared event of this key.
    pub fn event_named(&self, key: &str) -> Option<u32>
        ensures { result ≡ event_so (deployed_of self.now.parts) key.now }
    {
        number_at(self.codes.events.place_of(key.as_bytes()))
    }

    /// The number of the profile specification of this key.
    pub fn profile_named(&self, key: &str) -> Option<u32>
        ensures { result ≡ profile_so (deployed_of self.now.parts) key.now }
    {
        self.indexes.profiles.get(key)
    }

    /// The number of the table of this name.
    pub fn table_named(&self, name: &str) -> Option<u32>
        ensures { result ≡ table_so (deployed_of self.now.parts) name.now }
    {
        number_at(self.codes.tables.place_of(name.as_bytes()))
    }

    /// The number of the block of this key.
    pub fn block_named(&self, key: &str) -> Option<u32>
        ensures { result ≡ block_so (deployed_of self.now.parts) key.now }
    {
        self.indexes.blocks.get(key)
    }

    /// The number of the service of this key.
    pub fn service_named(&self, key: &str) -> Option<u32>
        ensures { result ≡ service_so (deployed_of self.now.parts) key.now }
    {
        number_at(self.codes.services.place_of(key.as_bytes()))
    }
}
