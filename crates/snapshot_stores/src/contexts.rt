//! The store of activities, with their attributes, attachments and names.
ghost use Rattle.std.specs.Prelude.{◌≡◌, ◌≤◌, [], IfOk, IsTrue, length};
ghost use Rattle.rows_sorted.specs.Orders.{are_below, rises_by, rises_in};
ghost use Rattle.router_state.specs.Contexts.{attribute_before, link_before, name_before};

use activity_context::Contexts;
use router_state::{Activity, Attribute, Link, Named};
use slee_value::NoMemory;
use std::alloc::Global;

fn add_activities(contexts: &mut Contexts, rows: Vec<Activity>)
    requires room { length rows.items ≤ contexts.old.rooms.activities }
    requires none { contexts.old.activities ≡ [] }
    requires rises { IsTrue (rises_in (λ row. row.number.0) rows.items) }
    requires below { IsTrue (are_below (λ row. row.number.0) contexts.old.next rows.items) }
    ensures { contexts.new ≡ record contexts.old { activities = rows.items; rooms = record contexts.old.rooms { activities = contexts.new.rooms.activities } } }
{
    'rows: for row in rows {
        contexts.restore(row);
    }
}

fn add_attributes(contexts: &mut Contexts, rows: Vec<Attribute>)
    requires room { length rows.items ≤ contexts.old.rooms.attributes }
    requires none { contexts.old.attributes ≡ [] }
    requires rises { IsTrue (rises_by attribute_before rows.items) }
    ensures { contexts.new ≡ record contexts.old { attributes = rows.items; rooms = record contexts.old.rooms { attributes = contexts.new.rooms.attributes } } }
{
    'rows: for row in rows {
        let Attribute {
            activity,
            key,
            value,
        } = row;
        contexts.set_attr(activity, key, value);
    }
}

fn add_links(contexts: &mut Contexts, rows: Vec<Link>)
    requires room { length rows.items ≤ contexts.old.rooms.links }
    requires none { contexts.old.links ≡ [] }
    requires rises { IsTrue (rises_by link_before rows.items) }
    ensures { contexts.new ≡ record contexts.old { links = rows.items; rooms = record contexts.old.rooms { links = contexts.new.rooms.links } } }
{
    'rows: for row in rows {
        contexts.restore_link(row.entity, row.activity);
    }
}

fn add_names(contexts: &mut Contexts, rows: Vec<Named>)
    requires room { length rows.items ≤ contexts.old.rooms.names }
    requires none { contexts.old.names ≡ [] }
    requires rises { IsTrue (rises_by name_before rows.items) }
    ensures { contexts.new ≡ record contexts.old { names = rows.items; names_kept = contexts.new.names_kept; rooms = record contexts.old.rooms { names = contexts.new.rooms.names } } }
{
    'rows: for row in rows {
        let Named { name, activity } = row;
        contexts.restore_name(name, activity);
    }
}

/// The four lists, and the number of the next activity.
pub(crate) fn contexts_of(
    alloc: Global,
    next: u64,
    activities: Vec<Activity>,
    attributes: Vec<Attribute>,
    links: Vec<Link>,
    names: Vec<Named>,
) -> Result<Contexts, NoMemory>
    requires activities { IsTrue (rises_in (λ row. row.number.0) activities.items) }
    requires below { IsTrue (are_below (λ row. row.number.0) next activities.items) }
    requires attributes { IsTrue (rises_by attribute_before attributes.items) }
    requires links { IsTrue (rises_by link_before links.items) }
    requires names { IsTrue (rises_by name_before names.items) }
    ensures next { IfOk result (λ c. c.next ≡ next) }
    ensures activities { IfOk result (λ c. c.activities ≡ activities.items) }
    ensures attributes { IfOk result (λ c. c.attributes ≡ attributes.items) }
    ensures links { IfOk result (λ c. c.links ≡ links.items) }
    ensures names { IfOk result (λ c. c.names ≡ names.items) }
{
    let mut contexts = Contexts::new(alloc);
    contexts.set_next(next);
    let most = activities.len().max(attributes.len()).max(links.len());
    contexts.reserve(most.max(names.len()) as u64)?;
    add_activities(&mut contexts, activities);
    add_attributes(&mut contexts, attributes);
    add_links(&mut contexts, links);
    add_names(&mut contexts, names);
    Ok(contexts)
}
