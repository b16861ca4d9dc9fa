//! What is declared, found in the codes of a deployment.
ghost use Rattle.std.specs.Prelude.{◌≡◌, ◌||◌, [], flat_map, option_and_then, option_copied, option_map, slice_get, is_some};
ghost use Rattle.std.specs.Option.{option_map_or};
ghost use Rattle.built_in_events.specs.BuiltIn.{event_named};
ghost use Rattle.script_types.specs.Codes.{named};

use built_in_events::BuiltInEvent;
use script_types::{AttributeCode, BlockCode, Codes, FieldCode, RelationCode};
use slee_value::{Kind, Text};

/// The block of this number.
pub fn block_at(codes: &Codes, block: u32) -> Option<&BlockCode>
    ensures { option_copied result ≡ slice_get codes.now.blocks block }
{
    codes.blocks.as_slice().get(block as usize)
}

/// The fields of a block.
pub fn fields(codes: &Codes, block: u32) -> &[FieldCode]
    ensures { result.now ≡ option_map_or (λ b. b.fields) (slice_get codes.now.blocks block) [] }
{
    match block_at(codes, block) {
        Some(block) => block.fields.as_slice(),
        None => &[],
    }
}

/// The field of a block by its name.
pub fn field<'a>(codes: &'a Codes, block: u32, name: &Text) -> Option<&'a FieldCode>
    ensures { option_copied result ≡ option_and_then (λ b. named (λ f. f.name) name.now b.fields) (slice_get codes.now.blocks block) }
{
    match block_at(codes, block) {
        Some(block) => block.fields.find(name.as_bytes()),
        None => None,
    }
}

/// The relation of a block by its name.
pub fn relation<'a>(codes: &'a Codes, block: u32, name: &Text) -> Option<&'a RelationCode>
    ensures { option_copied result ≡ option_and_then (λ b. named (λ r. r.name) name.now b.relations) (slice_get codes.now.blocks block) }
{
    match block_at(codes, block) {
        Some(block) => block.relations.find(name.as_bytes()),
        None => None,
    }
}

/// The first of these attributes that has the key.
fn attribute_among<'a>(attributes: &'a [AttributeCode], key: &Text) -> Option<&'a AttributeCode>
    ensures { option_copied result ≡ named (λ a. a.key) key.now attributes.now }
{
    attributes
        .iter()
        .find(|attribute| attribute.key.as_bytes() == key.as_bytes())
}

/// The type of the attribute of activities that has this key, in some block.
pub fn attribute_kind(codes: &Codes, key: &Text) -> Option<Kind>
    ensures { result ≡ option_map (λ a. a.kind) (named (λ a. a.key) key.now (flat_map (λ b. b.attributes) codes.now.blocks)) }
{
    let blocks = codes.blocks.as_slice();
    'each: for block in blocks {
        match attribute_among(block.attributes.as_slice(), key) {
            Some(attribute) => return Some(attribute.kind),
            None => {}
        }
    }
    None
}

/// Whether the event is built in or declared.
pub fn is_event(codes: &Codes, name: &Text) -> bool
    ensures { result ≡ (is_some (event_named name.now) || is_some (named (λ e. e.name) name.now codes.now.events)) }
{
    BuiltInEvent::named(name.as_bytes()).is_some() || codes.events.find(name.as_bytes()).is_some()
}
