//! All names that scripts read and change the state by, gathered from what scripts may name.
ghost use Rattle.std.specs.Prelude.{◌≡◌, ◌++◌, ◌∷◌, [], IfOk, OnOk, flat_map, map};
ghost use Rattle.built_in_events.specs.BuiltIn.{name_of, all_events};
ghost use Rattle.slee_descriptor.specs.CodesOfParts.{block_names, table_names, names_in};

use built_in_events::BuiltInEvent;
use script_types::{AttributeCode, BlockCode, EventCode, Named, NamedList, TableCode};
use slee_value::{NoMemory, Text};
use std::alloc::Global;

/// The events that no deployment declares.
const BUILT_IN: [BuiltInEvent; 6] = [
    BuiltInEvent::ActivityEnd,
    BuiltInEvent::Timer,
    BuiltInEvent::ServiceStarted,
    BuiltInEvent::ProfileAdded,
    BuiltInEvent::ProfileUpdated,
    BuiltInEvent::ProfileRemoved,
];

/// Adds a name.
fn add(alloc: Global, names: &mut Vec<Text>, name: &str) -> Result<(), NoMemory>
    ensures { OnOk result (names.new.items ≡ names.old.items ++ (name.now ∷ [])) }
{
    names.push(Text::from_str(alloc, name)?)?;
    Ok(())
}

/// Adds the names of items.
fn add_all<T: Named>(alloc: Global, names: &mut Vec<Text>, items: &[T]) -> Result<(), NoMemory>
    ensures { OnOk result (names.new.items ≡ names.old.items ++ map T.name_of items.now) }
{
    for item in items {
        add(alloc, names, item.name())?;
    }
    Ok(())
}

/// Adds the keys of attributes of activities.
fn add_keys(
    alloc: Global,
    names: &mut Vec<Text>,
    attributes: &[AttributeCode],
) -> Result<(), NoMemory>
    ensures { OnOk result (names.new.items ≡ names.old.items ++ map (λ a. a.key) attributes.now) }
{
    for attribute in attributes {
        add(alloc, names, attribute.key.as_str())?;
    }
    Ok(())
}

/// Adds the names of a block.
fn add_block(alloc: Global, names: &mut Vec<Text>, block: &BlockCode) -> Result<(), NoMemory>
    ensures { OnOk result (names.new.items ≡ names.old.items ++ block_names block.now) }
{
    add_all(alloc, names, block.fields.as_slice())?;
    add_all(alloc, names, block.relations.as_slice())?;
    add_keys(alloc, names, block.attributes.as_slice())?;
    Ok(())
}

/// Adds the names of blocks.
fn add_blocks(alloc: Global, names: &mut Vec<Text>, blocks: &[BlockCode]) -> Result<(), NoMemory>
    ensures { OnOk result (names.new.items ≡ names.old.items ++ flat_map block_names blocks.now) }
{
    for block in blocks {
        add_block(alloc, names, block)?;
    }
    Ok(())
}

/// Adds the names of a table.
fn add_table(alloc: Global, names: &mut Vec<Text>, table: &TableCode) -> Result<(), NoMemory>
    ensures { OnOk result (names.new.items ≡ names.old.items ++ table_names table.now) }
{
    add(alloc, names, table.name.as_str())?;
    add_all(alloc, names, table.attributes.as_slice())?;
    Ok(())
}

/// Adds the names of tables.
fn add_tables(alloc: Global, names: &mut Vec<Text>, tables: &[TableCode]) -> Result<(), NoMemory>
    ensures { OnOk result (names.new.items ≡ names.old.items ++ flat_map table_names tables.now) }
{
    for table in tables {
        add_table(alloc, names, table)?;
    }
    Ok(())
}

/// Adds the names of built-in events.
fn add_built_in(
    alloc: Global,
    names: &mut Vec<Text>,
    events: &[BuiltInEvent],
) -> Result<(), NoMemory>
    ensures { OnOk result (names.new.items ≡ names.old.items ++ map name_of events.now) }
{
    for event in events {
        add(alloc, names, event.name())?;
    }
    Ok(())
}

/// All names that scripts read and change the state by.
pub(crate) fn names_of(
    alloc: Global,
    events: &[EventCode],
    tables: &[TableCode],
    blocks: &[BlockCode],
) -> Result<NamedList<Text>, NoMemory>
    ensures { IfOk result (λ l. l ≡ names_in events.now tables.now blocks.now) }
{
    let mut names = Vec::new(alloc);
    add_blocks(alloc, &mut names, blocks)?;
    add_tables(alloc, &mut names, tables)?;
    add_all(alloc, &mut names, events)?;
    add_built_in(alloc, &mut names, BUILT_IN.as_slice())?;
    NamedList::from_items(alloc, names)
}
