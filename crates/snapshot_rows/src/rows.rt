//! All that a state has beside its deployment.

use router_state::{
    Activity, Attribute, Entity, EntityMark, Field, Link, Mask, Named, ProfileRow, Queued,
    RootName, Service, ServiceMark, Suspension, Timer,
};

/// The counts and the lists of a state. Nothing is said of them: they need not be those of a well-formed state.
#[derive(Debug, Drop)]
pub struct Rows {
    /// The moment that the last clock line gave.
    pub clock: u64,
    /// How many lines were taken.
    pub inputs: u64,
    pub next_entity: u64,
    pub next_activity: u64,
    pub next_timer: u64,
    pub next_event: u64,
    /// A service's number is its place.
    pub services: Vec<Service>,
    pub entities: Vec<Entity>,
    pub root_names: Vec<RootName>,
    pub fields: Vec<Field>,
    pub activities: Vec<Activity>,
    pub attributes: Vec<Attribute>,
    pub links: Vec<Link>,
    pub masks: Vec<Mask>,
    pub names: Vec<Named>,
    pub events: Vec<Queued>,
    pub services_done: Vec<ServiceMark>,
    pub delivered: Vec<EntityMark>,
    pub suspensions: Vec<Suspension>,
    pub timers: Vec<Timer>,
    /// The rows of the profile tables.
    pub rows: Vec<ProfileRow>,
}
