//! All stores of the state, with what no store keeps. Contracts see the state as plain lists, and how many more rows each list takes without memory.
ghost use Rattle.std.specs.Prelude.{◌≡◌, ◌==◌, ◌<◌, ◌≤◌, Some, length, map, slice_get, option_copied, IfOk, OnOk};
ghost use Rattle.std.specs.List.{list_any};
ghost use Rattle.script_types.specs.ProgramOf.{kept_program};
ghost use Rattle.deploy_model.specs.Resolving.{deployed_of};
ghost use Rattle.router_state.specs.Changes.{after_change};
ghost use Rattle.router_state.specs.Contexts.{activities_of};
ghost use Rattle.router_state.specs.Initial.{initial};
ghost use Rattle.router_state.specs.Ordered.{IsOrdered};
ghost use Rattle.router_state.specs.Trees.{root_name_at};
ghost use Rattle.router_state.specs.declared.change.Change.TheVariants as changes;
ghost use Rattle.router_stores.specs.Begun.{IsBegun, begins};
ghost use Rattle.router_stores.specs.Filled.{AreFilled, filled_state};
ghost use Rattle.router_stores.specs.TableSpecs.{specs_of};
ghost use Rattle.router_stores.specs.Making.{CanMake};
ghost use Rattle.router_order.specs.Listed.{Agrees};
ghost use Rattle.router_stores.specs.Ready.{AreAllReady};
ghost use Rattle.router_stores.specs.Views.{FallsBy, HasRoom, width, widths};

use crate::StoreParts;
use crate::ready::{Ready, list_ready};
use crate::services::{services_of, set_service};
use crate::table_specs::specs_of;
use crate::tables::contexts_of;
use crate::widths::rows_for;
use activity_context::Contexts;
use cmp_store::Fields;
use entity_tree::Tree;
use event_mask::Masks;
use event_queue::Queues;
use profile_tables::{Profiles, TableSpec};
use router_order::Order;
use router_state::{AcKind, Change, Event, RootName, Service, ServiceState, TimerSpec};
use rows_index::Entry;
use rows_leaves::{Leaves, Run};
use slee_descriptor::Deployment;
use slee_value::{
    ActivityId, ConvName, EntityId, Name, Names, NoMemory, Payload, Text, TimerId, Value,
};
use std::alloc::Global;
use std::marker::Model;
use std::snapshot::Snapshot;
use timer_facility::Timers;

/// The state in its stores. What was deployed is held for contracts alone, and takes no byte.
pub struct Stores {
    deployment: Snapshot<Deployment>,
    fields: Fields,
    tree: Tree,
    contexts: Contexts,
    masks: Masks,
    queues: Queues,
    timers: Timers,
    profiles: Profiles,
    order: Order,
    ready: Leaves<Ready>,
    root_names: Leaves<RootName>,
    services: Vec<Service>,
    clock: u64,
    inputs: u64,
    next_event: u64,
}

impl Drop for Stores {
    fn drop(self) {
        let Self {
            deployment: _,
            fields: _,
            tree: _,
            contexts: _,
            masks: _,
            queues: _,
            timers: _,
            profiles: _,
            order: _,
            ready: _,
            root_names: _,
            services: _,
            clock: _,
            inputs: _,
            next_event: _,
        } = self;
    }
}

impl Model for Stores {
    ghost use Rattle.std.specs.Coded.{codes};
    ghost use Rattle.script_types.specs.ProgramCode.{term_code, steps_code};
    ghost use Rattle.router_stores.specs.Views.{StoresView};

    ghost Value = { StoresView };

    ghost coded = { Prim.hlevel (codes, term_code (Prim.hlevel codes), steps_code (Prim.hlevel (codes, term_code (Prim.hlevel codes)))) };

    ghost use Rattle.router_stores.specs.Held.{held, IsKept};

    ghost view = { held };

    ghost invariant = { IsKept };
}

impl Stores {
    fn begin(
        alloc: Global,
        deployment: &Deployment,
        contexts: Contexts,
        tables: Vec<TableSpec>,
        services: Vec<Service>,
    ) -> Self
        requires begun { IsBegun (length deployment.now.parts.tables) contexts }
        requires tables { tables.items ≡ specs_of (deployed_of deployment.now.parts) }
        requires services { services.items ≡ map begins deployment.now.parts.services }
        ensures { result.state ≡ initial (deployed_of deployment.now.parts) (kept_program deployment.now.codes) }
    {
        Stores {
            deployment: Snapshot::of(deployment),
            fields: Fields::new(alloc),
            tree: Tree::new(alloc),
            contexts,
            masks: Masks::new(alloc),
            queues: Queues::new(alloc),
            timers: Timers::new(alloc),
            profiles: Profiles::new(alloc, tables),
            order: Order::new(alloc),
            ready: Leaves::new(alloc),
            root_names: Leaves::new(alloc),
            services,
            clock: 0,
            inputs: 0,
            next_event: 1,
        }
    }

    /// The state in which nothing has happened: the services as deployed, and an activity for each profile table.
    pub fn initial(alloc: Global, deployment: &Deployment) -> Result<Self, NoMemory>
        ensures { IfOk result (λ s. s.state ≡ initial (deployed_of deployment.now.parts) (kept_program deployment.now.codes)) }
    {
        let contexts = contexts_of(alloc, deployment.tables())?;
        let tables = specs_of(alloc, deployment)?;
        let services = services_of(alloc, deployment.services())?;
        Ok(Stores::begin(alloc, deployment, contexts, tables, services))
    }

    /// The state that filled stores hold.
    pub fn from_parts(deployment: &Deployment, parts: StoreParts) -> Self
        requires { AreFilled (deployed_of deployment.now.parts) parts }
        ensures { result.state ≡ filled_state (deployed_of deployment.now.parts) (kept_program deployment.now.codes) parts }
    {
        let StoreParts {
            fields,
            tree,
            contexts,
            masks,
            queues,
            timers,
            profiles,
            order,
            ready,
            root_names,
            services,
            clock,
            inputs,
            next_event,
        } = parts;
        Stores {
            deployment: Snapshot::of(deployment),
            fields,
            tree,
            contexts,
            masks,
            queues,
            timers,
            profiles,
            order,
            ready,
            root_names,
            services,
            clock,
            inputs,
            next_event,
        }
    }

    /// Makes room for these changes.
    pub fn reserve(&mut self, changes: &[Change]) -> Result<(), NoMemory>
        ensures kept { self.new.state ≡ self.old.state }
        ensures room { OnOk result (HasRoom (widths changes.now) self.new) }
    {
        match rows_for(changes) {
            Some(rows) => self.reserve_rows(rows),
            None => Err(NoMemory),
        }
    }

    /// Makes one change, in the room that was made for it.
    pub fn change(&mut self, change: Change)
        requires room { HasRoom (width change) self.old }
        requires can { CanMake change self.old.state }
        ensures state { self.new.state ≡ after_change change self.old.state }
        ensures room { FallsBy (width change) self.old self.new }
    {
        match change {
            Change::SetField {
                entity,
                field,
                value,
            } => self.set_field(entity, field, value),
            Change::ForgetFields { entity } => self.forget_fields(entity),
            Change::CreateRoot {
                block,
                service,
                priority,
            } => self.create_root(block, service, priority),
            Change::CreateChild {
                parent,
                relation,
                block,
                priority,
            } => self.create_child(parent, relation, block, priority),
            Change::Remove { entity } => self.remove(entity),
            Change::SetPriority { entity, priority } => self.set_priority(entity, priority),
            Change::Start { kind } => self.start(kind),
            Change::End { activity } => self.end(activity),
            Change::DropContext { activity } => self.drop_context(activity),
            Change::Attach { entity, activity } => self.attach(entity, activity),
            Change::Detach { entity, activity } => self.detach(entity, activity),
            Change::SetAttr {
                activity,
                key,
                value,
            } => self.set_attr(activity, key, value),
            Change::Bind { name, activity } => self.bind(name, activity),
            Change::Unbind { name } => self.unbind(name),
            Change::MaskOnAttach {
                entity,
                activity,
                names,
            } => self.mask_on_attach(entity, activity, names),
            Change::SetMask {
                entity,
                activity,
                event,
                on,
            } => self.set_mask(entity, activity, event, on),
            Change::ForgetMasks { entity, activity } => self.forget_masks(entity, activity),
            Change::Push { activity, event } => self.push(activity, event),
            Change::Pop { activity } => self.pop(activity),
            Change::MarkService { activity, service } => self.mark_service(activity, service),
            Change::MarkEntity { activity, entity } => self.mark_entity(activity, entity),
            Change::Hold { activity, until } => self.hold(activity, until),
            Change::Release { activity } => self.release(activity),
            Change::SetTimer { spec } => self.set_timer(spec),
            Change::Cancel { timer } => self.cancel(timer),
            Change::CancelAll { activity } => self.cancel_all(activity),
            Change::Advance { to } => self.advance(to),
            Change::AddRow { table, row, fields } => self.add_row(table, row, fields),
            Change::UpdateRow { table, row, fields } => self.update_row(table, row, fields),
            Change::RemoveRow { table, row } => self.remove_row(table, row),
            Change::Clock { to } => self.set_clock(to),
            Change::Taken => self.count_input(),
            Change::Service {
                service,
                state,
                activity,
            } => self.set_service(service, state, activity),
            Change::Root { entity, name } => self.name_root(entity, name),
            Change::NextEvent => self.count_event(),
        }
    }

    /// Makes room for this many rows in each list.
    fn reserve_rows(&mut self, rows: u64) -> Result<(), NoMemory>
        ensures kept { self.new.state ≡ self.old.state }
        ensures room { OnOk result (HasRoom rows self.new) }
    {
        self.fields.reserve(rows)?;
        self.tree.reserve(rows)?;
        self.root_names.reserve(rows as usize)?;
        self.contexts.reserve(rows)?;
        self.masks.reserve(rows)?;
        self.queues.reserve(rows)?;
        self.timers.reserve(rows)?;
        self.profiles.reserve(rows)?;
        self.order.reserve(rows)?;
        self.ready.reserve(rows as usize)?;
        Ok(())
    }

    fn set_field(&mut self, entity: EntityId, field: Name, value: Value)
        requires room { 0 < self.old.rooms.fields }
        ensures state { self.new.state ≡ after_change (changes.SetField entity field value) self.old.state }
        ensures room { FallsBy 1 self.old self.new }
    {
        self.fields.set(entity, field, value);
    }

    fn forget_fields(&mut self, entity: EntityId)
        ensures state { self.new.state ≡ after_change (changes.ForgetFields entity) self.old.state }
        ensures room { FallsBy 1 self.old self.new }
    {
        self.fields.forget(entity);
    }

    fn create_root(&mut self, block: u32, service: u32, priority: i8)
        requires room { 0 < self.old.rooms.entities }
        requires can { CanMake (changes.CreateRoot block service priority) self.old.state }
        ensures state { self.new.state ≡ after_change (changes.CreateRoot block service priority) self.old.state }
        ensures room { FallsBy 1 self.old self.new }
    {
        self.tree.ordered();
        self.tree.create_root(block, service, priority);
    }

    fn create_child(&mut self, parent: EntityId, relation: Name, block: u32, priority: i8)
        requires room { 0 < self.old.rooms.entities }
        requires can { CanMake (changes.CreateChild parent relation block priority) self.old.state }
        ensures state { self.new.state ≡ after_change (changes.CreateChild parent relation block priority) self.old.state }
        ensures room { FallsBy 1 self.old self.new }
    {
        self.tree.ordered();
        self.tree.create_child(parent, relation, block, priority);
    }

    fn remove(&mut self, entity: EntityId)
        requires can { CanMake (changes.Remove entity) self.old.state }
        ensures state { self.new.state ≡ after_change (changes.Remove entity) self.old.state }
        ensures room { FallsBy 1 self.old self.new }
    {
        self.tree.ordered();
        self.tree.remove(entity);
        self.root_names.cut_rows_of(entity.0);
    }

    fn set_priority(&mut self, entity: EntityId, priority: i8)
        ensures state { self.new.state ≡ after_change (changes.SetPriority entity priority) self.old.state }
        ensures room { FallsBy 1 self.old self.new }
    {
        self.order.set_priority(&mut self.tree, entity, priority);
    }

    fn start(&mut self, kind: AcKind)
        requires room { 0 < self.old.rooms.activities }
        requires can { CanMake (changes.Start kind) self.old.state }
        ensures state { self.new.state ≡ after_change (changes.Start kind) self.old.state }
        ensures room { FallsBy 1 self.old self.new }
    {
        match self.contexts.start(kind) {
            Ok(_) => {}
            Err(_) => unreachable!(),
        }
    }

    fn end(&mut self, activity: ActivityId)
        requires can { CanMake (changes.End activity) self.old.state }
        ensures state { self.new.state ≡ after_change (changes.End activity) self.old.state }
        ensures room { FallsBy 1 self.old self.new }
    {
        match self.contexts.end(activity) {
            Ok(_) => {}
            Err(_) => unreachable!(),
        }
    }

    fn drop_context(&mut self, activity: ActivityId)
        ensures state { self.new.state ≡ after_change (changes.DropContext activity) self.old.state }
        ensures room { FallsBy 1 self.old self.new }
    {
        self.order.forget_activity(activity);
        self.contexts.drop_context(activity);
    }

    fn attach(&mut self, entity: EntityId, activity: ActivityId)
        requires room { 0 < self.old.rooms.links }
        requires more { 0 < self.old.rooms.by_path }
        requires can { CanMake (changes.Attach entity activity) self.old.state }
        ensures state { self.new.state ≡ after_change (changes.Attach entity activity) self.old.state }
        ensures room { FallsBy 1 self.old self.new }
    {
        self.order.attach(&self.tree, activity, entity);
        self.contexts.attach(entity, activity);
    }

    fn detach(&mut self, entity: EntityId, activity: ActivityId)
        ensures state { self.new.state ≡ after_change (changes.Detach entity activity) self.old.state }
        ensures room { FallsBy 1 self.old self.new }
    {
        self.order.detach(&self.tree, activity, entity);
        self.contexts.detach(entity, activity);
    }

    fn set_attr(&mut self, activity: ActivityId, key: Text, value: Value)
        requires room { 0 < self.old.rooms.attributes }
        ensures state { self.new.state ≡ after_change (changes.SetAttr activity key value) self.old.state }
        ensures room { FallsBy 1 self.old self.new }
    {
        self.contexts.set_attr(activity, key, value);
    }

    fn bind(&mut self, name: Text, activity: ActivityId)
        requires room { 0 < self.old.rooms.names }
        requires can { CanMake (changes.Bind name activity) self.old.state }
        ensures state { self.new.state ≡ after_change (changes.Bind name activity) self.old.state }
        ensures room { FallsBy 1 self.old self.new }
    {
        match self.contexts.bind(name, activity) {
            Ok(_) => {}
            Err(_) => unreachable!(),
        }
    }

    fn unbind(&mut self, name: Text)
        requires can { CanMake (changes.Unbind name) self.old.state }
        ensures state { self.new.state ≡ after_change (changes.Unbind name) self.old.state }
        ensures room { FallsBy 1 self.old self.new }
    {
        match self.contexts.unbind(&name) {
            Ok(_) => {}
            Err(_) => unreachable!(),
        }
    }

    fn mask_on_attach(&mut self, entity: EntityId, activity: ActivityId, names: Names)
        requires room { length names ≤ self.old.rooms.masks }
        ensures state { self.new.state ≡ after_change (changes.MaskOnAttach entity activity names) self.old.state }
        ensures room { FallsBy (length names) self.old self.new }
    {
        self.masks.on_attach(entity, activity, names.into_vec());
    }

    fn set_mask(&mut self, entity: EntityId, activity: ActivityId, event: Text, on: bool)
        requires room { 0 < self.old.rooms.masks }
        ensures state { self.new.state ≡ after_change (changes.SetMask entity activity event on) self.old.state }
        ensures room { FallsBy 1 self.old self.new }
    {
        self.masks.set(entity, activity, event, on);
    }

    fn forget_masks(&mut self, entity: EntityId, activity: ActivityId)
        ensures state { self.new.state ≡ after_change (changes.ForgetMasks entity activity) self.old.state }
        ensures room { FallsBy 1 self.old self.new }
    {
        self.masks.forget(entity, activity);
    }

    fn push(&mut self, activity: ActivityId, event: Event)
        requires room { 0 < self.old.rooms.events }
        requires more { 0 < self.old.rooms.ready }
        ensures state { self.new.state ≡ after_change (changes.Push activity event) self.old.state }
        ensures room { FallsBy 1 self.old self.new }
    {
        self.queues.push(activity, event);
        list_ready(&mut self.ready, &self.queues, activity);
    }

    fn pop(&mut self, activity: ActivityId)
        requires more { 0 < self.old.rooms.ready }
        ensures state { self.new.state ≡ after_change (changes.Pop activity) self.old.state }
        ensures room { FallsBy 1 self.old self.new }
    {
        self.queues.pop(activity);
        list_ready(&mut self.ready, &self.queues, activity);
    }

    fn mark_service(&mut self, activity: ActivityId, service: u32)
        requires room { 0 < self.old.rooms.services_done }
        ensures state { self.new.state ≡ after_change (changes.MarkService activity service) self.old.state }
        ensures room { FallsBy 1 self.old self.new }
    {
        self.queues.mark_service(activity, service);
    }

    fn mark_entity(&mut self, activity: ActivityId, entity: EntityId)
        requires room { 0 < self.old.rooms.delivered }
        ensures state { self.new.state ≡ after_change (changes.MarkEntity activity entity) self.old.state }
        ensures room { FallsBy 1 self.old self.new }
    {
        self.queues.mark_entity(activity, entity);
    }

    fn hold(&mut self, activity: ActivityId, until: u64)
        requires room { 0 < self.old.rooms.suspensions }
        requires more { 0 < self.old.rooms.ready }
        ensures state { self.new.state ≡ after_change (changes.Hold activity until) self.old.state }
        ensures room { FallsBy 1 self.old self.new }
    {
        self.queues.hold(activity, until);
        list_ready(&mut self.ready, &self.queues, activity);
    }

    fn release(&mut self, activity: ActivityId)
        requires more { 0 < self.old.rooms.ready }
        ensures state { self.new.state ≡ after_change (changes.Release activity) self.old.state }
        ensures room { FallsBy 1 self.old self.new }
    {
        self.queues.release(activity);
        list_ready(&mut self.ready, &self.queues, activity);
    }

    fn set_timer(&mut self, spec: TimerSpec)
        requires room { 0 < self.old.rooms.timers }
        requires can { CanMake (changes.SetTimer spec) self.old.state }
        ensures state { self.new.state ≡ after_change (changes.SetTimer spec) self.old.state }
        ensures room { FallsBy 1 self.old self.new }
    {
        self.timers.set(spec);
    }

    fn cancel(&mut self, timer: TimerId)
        ensures state { self.new.state ≡ after_change (changes.Cancel timer) self.old.state }
        ensures room { FallsBy 1 self.old self.new }
    {
        self.timers.cancel(timer);
    }

    fn cancel_all(&mut self, activity: ActivityId)
        ensures state { self.new.state ≡ after_change (changes.CancelAll activity) self.old.state }
        ensures room { FallsBy 1 self.old self.new }
    {
        self.timers.cancel_all(activity);
    }

    fn advance(&mut self, to: u64)
        ensures state { self.new.state ≡ after_change (changes.Advance to) self.old.state }
        ensures room { FallsBy 1 self.old self.new }
    {
        self.timers.advance(to);
    }

    fn add_row(&mut self, table: u32, row: Text, fields: Payload)
        requires room { 0 < self.old.rooms.rows }
        requires can { CanMake (changes.AddRow table row fields) self.old.state }
        ensures state { self.new.state ≡ after_change (changes.AddRow table row fields) self.old.state }
        ensures room { FallsBy 1 self.old self.new }
    {
        match self.profiles.add(table, row, fields) {
            Ok(_) => {}
            Err(_) => unreachable!(),
        }
    }

    fn update_row(&mut self, table: u32, row: Text, fields: Payload)
        requires can { CanMake (changes.UpdateRow table row fields) self.old.state }
        ensures state { self.new.state ≡ after_change (changes.UpdateRow table row fields) self.old.state }
        ensures room { FallsBy 1 self.old self.new }
    {
        match self.profiles.update(table, row, fields) {
            Ok(_) => {}
            Err(_) => unreachable!(),
        }
    }

    fn remove_row(&mut self, table: u32, row: Text)
        requires can { CanMake (changes.RemoveRow table row) self.old.state }
        ensures state { self.new.state ≡ after_change (changes.RemoveRow table row) self.old.state }
        ensures room { FallsBy 1 self.old self.new }
    {
        match self.profiles.remove(table, &row) {
            Ok(_) => {}
            Err(_) => unreachable!(),
        }
    }

    fn set_clock(&mut self, to: u64)
        ensures state { self.new.state ≡ after_change (changes.Clock to) self.old.state }
        ensures room { FallsBy 1 self.old self.new }
    {
        self.clock = to;
    }

    fn count_input(&mut self)
        requires can { CanMake changes.Taken self.old.state }
        ensures state { self.new.state ≡ after_change changes.Taken self.old.state }
        ensures room { FallsBy 1 self.old self.new }
    {
        self.inputs += 1;
    }

    fn set_service(&mut self, service: u32, state: ServiceState, activity: ActivityId)
        requires can { CanMake (changes.Service service state activity) self.old.state }
        ensures state { self.new.state ≡ after_change (changes.Service service state activity) self.old.state }
        ensures room { FallsBy 1 self.old self.new }
    {
        set_service(&mut self.services, service, state, activity);
    }

    fn name_root(&mut self, entity: EntityId, name: ConvName)
        requires room { 0 < self.old.rooms.root_names }
        ensures state { self.new.state ≡ after_change (changes.Root entity name) self.old.state }
        ensures room { FallsBy 1 self.old self.new }
    {
        self.root_names.put_row(RootName { entity, name });
    }

    fn count_event(&mut self)
        requires can { CanMake changes.NextEvent self.old.state }
        ensures state { self.new.state ≡ after_change changes.NextEvent self.old.state }
        ensures room { FallsBy 1 self.old self.new }
    {
        self.next_event += 1;
    }

    /// The fields of all entities.
    pub fn fields(&self) -> &Fields
        ensures { result.now.rows ≡ self.now.state.fields }
    {
        &self.fields
    }

    /// All entities.
    pub fn tree(&self) -> &Tree
        ensures entities { result.now.rows ≡ self.now.state.entities }
        ensures next { result.now.next ≡ self.now.state.next_entity }
    {
        &self.tree
    }

    /// All activities.
    pub fn contexts(&self) -> &Contexts
        ensures activities { result.now.activities ≡ self.now.state.activities }
        ensures attributes { result.now.attributes ≡ self.now.state.attributes }
        ensures links { result.now.links ≡ self.now.state.links }
        ensures names { result.now.names ≡ self.now.state.names }
        ensures next { result.now.next ≡ self.now.state.next_activity }
    {
        &self.contexts
    }

    /// All masks.
    pub fn masks(&self) -> &Masks
        ensures { result.now.rows ≡ self.now.state.masks }
    {
        &self.masks
    }

    /// All events that wait.
    pub fn queues(&self) -> &Queues
        ensures events { result.now.events ≡ self.now.state.events }
        ensures services_done { result.now.services_done ≡ self.now.state.services_done }
        ensures delivered { result.now.delivered ≡ self.now.state.delivered }
        ensures suspensions { result.now.suspensions ≡ self.now.state.suspensions }
    {
        &self.queues
    }

    /// All timers.
    pub fn timers(&self) -> &Timers
        ensures timers { result.now.timers ≡ self.now.state.timers }
        ensures next { result.now.next ≡ self.now.state.next_timer }
    {
        &self.timers
    }

    /// The rows of all profile tables.
    pub fn profiles(&self) -> &Profiles
        ensures rows { result.now.rows ≡ self.now.state.rows }
        ensures tables { result.now.tables ≡ specs_of self.now.state.deployment }
    {
        &self.profiles
    }

    /// The moment that the last clock line gave.
    pub fn clock(&self) -> u64
        ensures { result ≡ self.now.state.clock }
    {
        self.clock
    }

    /// How many lines were taken.
    pub fn inputs(&self) -> u64
        ensures { result ≡ self.now.state.inputs }
    {
        self.inputs
    }

    /// The number of the next event.
    pub fn next_event(&self) -> u64
        ensures { result ≡ self.now.state.next_event }
    {
        self.next_event
    }

    /// The services, each at the place that is its number.
    pub fn services(&self) -> &[Service]
        ensures { result.now ≡ self.now.state.services }
    {
        self.services.as_slice()
    }

    /// The state and the activity of the service.
    pub fn service(&self, service: u32) -> Service
        requires { service < length self.now.state.services }
        ensures { slice_get self.now.state.services service ≡ Some result }
    {
        self.services[service as usize]
    }

    /// The convergence name of the root, if it has one.
    pub fn root_name(&self, entity: EntityId) -> Option<&ConvName>
        ensures { option_copied result ≡ root_name_at self.now.state.root_names entity.0 }
    {
        match self.root_names.first_row_of(entity.0) {
            Some(row) => Some(&row.name),
            None => None,
        }
    }

    /// All attachments in the order of their paths.
    pub fn order(&self) -> &Order
        ensures { Agrees self.now.state.entities self.now.state.links result.now.rows }
    {
        &self.order
    }

    /// The activities that are ready, rising: on each an event waits that isn't suspended.
    pub fn ready(&self) -> Run<'_, Ready>
        ensures { AreAllReady result self.now.state }
    {
        self.ready.rises();
        self.ready.iter()
    }

    /// The activities to which the entity is attached, rising.
    pub fn activities_of(&self, entity: EntityId) -> Run<'_, Entry>
        ensures { map (λ entry. entry.number) result ≡ activities_of self.now.state.links entity.0 }
    {
        self.contexts.ordered();
        self.order.of(entity)
    }

    /// Whether the entity is attached to an activity.
    pub fn has_attachment(&self, entity: EntityId) -> bool
        ensures { result ≡ list_any (λ l. l.entity.0 == entity.0) self.now.state.links }
    {
        self.contexts.ordered();
        self.order.has(entity)
    }

    /// Passes on that every list rises, and that numbers are below the next ones.
    pub fn ordered(&self)
        ensures { IsOrdered self.now.state }
    {
        self.tree.ordered();
        self.root_names.rises();
        let _fields = self.fields.len();
        self.contexts.ordered();
        let _masks = self.masks.len();
        let _events = self.queues.len();
        let _timers = self.timers.len();
        let _rows = self.profiles.len();
    }
}
