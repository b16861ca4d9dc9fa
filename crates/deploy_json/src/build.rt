//! What builds lists: of an array's items, and of an object's members.
ghost use Rattle.std.specs.Prelude.{◌≡◌, IfOk};
ghost use Rattle.serde_json.specs.View.{view, items_view, members_view};
ghost use Rattle.deploy_schema.specs.Numbers.{items_at};
ghost use Rattle.deploy_schema.specs.Names.{members_at};
ghost use Rattle.deploy_json.specs.Values.{listed, entries};
ghost use Rattle.deploy_json.specs.Shapes.{EachItem, EachMember};

use deploy_schema::{items_in, object_at};
use script_types::CodeList;
use serde_json::{Map, Value};
use slee_value::NoMemory;
use std::alloc::Global;

/// Builds what a value is.
pub(crate) trait Build<A> {
    ghost use Rattle.serde_json.specs.Data.{Data};

    /// What a value has to have.
    ghost fits: { Self → Data → Type 0 };

    ghost built: { Self → Data → A };

    fn build(&self, alloc: Global, value: &Value) -> Result<A, NoMemory>
        requires { fits self.now (view value.now) }
        ensures { IfOk result (λ x. x ≡ built self.now (view value.now)) };
}

/// Builds what a member of an object is, with its name.
pub(crate) trait BuildEntry<A> {
    ghost use Rattle.script_tree.specs.Tree.{Bytes};
    ghost use Rattle.serde_json.specs.Data.{Data};

    /// What a name and a value have to have.
    ghost fits_entry: { Self → Bytes → Data → Type 0 };

    ghost built_entry: { Self → Bytes → Data → A };

    fn build_entry(&self, alloc: Global, name: &str, value: &Value) -> Result<A, NoMemory>
        requires { fits_entry self.now name.now (view value.now) }
        ensures { IfOk result (λ x. x ≡ built_entry self.now name.now (view value.now)) };
}

/// What each item of an array is.
pub(crate) fn build_items<A: Drop, B: Build<A>>(
    alloc: Global,
    form: &B,
    items: &[Value],
) -> Result<CodeList<A>, NoMemory>
    requires { EachItem (B.fits form.now) (items_view items.now) }
    ensures { IfOk result (λ l. l ≡ listed (B.built form.now) (items_view items.now)) }
{
    let mut list = CodeList::new(alloc);
    for item in items {
        list.push(form.build(alloc, item)?)?;
    }
    Ok(list)
}

/// What each item of an array is that an object has at a member.
pub(crate) fn build_list<A: Drop, B: Build<A>>(
    alloc: Global,
    form: &B,
    value: &Value,
    name: &str,
) -> Result<CodeList<A>, NoMemory>
    requires { EachItem (B.fits form.now) (items_at name.now (view value.now)) }
    ensures { IfOk result (λ l. l ≡ listed (B.built form.now) (items_at name.now (view value.now))) }
{
    build_items(alloc, form, items_in(value, name))
}

/// What each member of an object is.
fn build_members<A: Drop, B: BuildEntry<A>>(
    alloc: Global,
    form: &B,
    members: &Map<String, Value>,
) -> Result<CodeList<A>, NoMemory>
    requires { EachMember (B.fits_entry form.now) (members_view members.now.entries) }
    ensures { IfOk result (λ l. l ≡ entries (B.built_entry form.now) (members_view members.now.entries)) }
{
    let mut list = CodeList::new(alloc);
    for (name, item) in members {
        list.push(form.build_entry(alloc, name.as_str(), item)?)?;
    }
    Ok(list)
}

/// What each member of an object is that an object has at a member.
pub(crate) fn build_map<A: Drop, B: BuildEntry<A>>(
    alloc: Global,
    form: &B,
    value: &Value,
    name: &str,
) -> Result<CodeList<A>, NoMemory>
    requires { EachMember (B.fits_entry form.now) (members_at name.now (view value.now)) }
    ensures { IfOk result (λ l. l ≡ entries (B.built_entry form.now) (members_at name.now (view value.now))) }
{
    match object_at(value, name) {
        Some(members) => build_members(alloc, form, members),
        None => Ok(CodeList::new(alloc)),
    }
}
