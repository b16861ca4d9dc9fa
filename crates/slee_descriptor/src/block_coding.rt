//! What scripts see of a block.
ghost use Rattle.std.specs.Prelude.{◌≡◌, ◌++◌, IfOk, codes, map, option_and_then, slice_get};
ghost use Rattle.std.specs.Option.{option_map_or};
ghost use Rattle.script_tree.specs.Tree.{Bytes};
ghost use Rattle.slee_descriptor.specs.CodesOfParts.{handler_code, method_code, block_code};
ghost use Rattle.slee_descriptor.specs.Keys.{number_in};
ghost use Rattle.deploy_model.specs.Firsts.{answer_of};
ghost use Rattle.deploy_model.specs.Resolving.{attribute_of, attribute_key as key_so, relation_of};
ghost use Rattle.deploy_model.specs.Tables.{key_number};

use crate::coding::{Coding, codes_by, named_by};
use crate::keys::Keys;
use crate::part_coding::{FieldCoding, field_codes, number_of};
use deploy_model::{Block, BlockEvent, Method, Numbers, Relation, numbers_of};
use script_tree::Script;
use script_types::{AttributeCode, BlockCode, HandlerCode, MethodCode, NamedList, RelationCode};
use slee_value::{Kind, Name, NoMemory, Text};
use std::alloc::Global;

/// An attribute of activities, by its alias, or by the block's key and its name.
#[derive(Drop)]
struct AttributeCoding<'a, 'v> {
    block: &'a Block,
    aliases: &'a Numbers<'v>,
    ghost indexed: { (q : Bytes) → answer_of aliases.now q ≡ key_number (λ a. a.0) block.now.aliases q },
}

impl<'a, 'v> AttributeCoding<'a, 'v> {
    fn key(&self, alloc: Global, name: &Name) -> Result<Text, NoMemory>
        ensures { IfOk result (λ t. t ≡ key_so self.now.block.now name.now) }
    {
        let place = self.aliases.get(name.as_str());
        alias_or_own(
            alloc,
            self.block.aliases.as_slice(),
            place,
            &self.block.key,
            name,
        )
    }
}

/// The alias at a place, or the attribute's own key where there is none.
fn alias_or_own(
    alloc: Global,
    aliases: &[(Name, Name)],
    place: Option<usize>,
    block: &Name,
    name: &Name,
) -> Result<Text, NoMemory>
    ensures { IfOk result (λ t. t ≡ option_map_or (λ a. a.1) (option_and_then (slice_get aliases.now) place) (block.now ++ codes "." ++ name.now)) }
{
    match place {
        Some(place) => match aliases.get(place) {
            Some((_, alias)) => Text::from_str(alloc, alias.as_str()),
            None => own_key(alloc, block, name),
        },
        None => own_key(alloc, block, name),
    }
}

/// A block's key and a name, with a dot between.
fn own_key(alloc: Global, block: &Name, name: &Name) -> Result<Text, NoMemory>
    ensures { IfOk result (λ t. t ≡ block.now ++ codes "." ++ name.now) }
{
    let mut key = String::from_str(alloc, block.as_str())?;
    key.push_str(".")?;
    key.push_str(name.as_str())?;
    Ok(Text::from(key))
}

impl<'a, 'v> Coding<(Name, Kind), AttributeCode> for AttributeCoding<'a, 'v> {
    ghost code = { λ s a. attribute_of s.block.now a };

    fn code(&self, alloc: Global, part: &(Name, Kind)) -> Result<AttributeCode, NoMemory> {
        let name = part.0.copy(alloc)?;
        let key = self.key(alloc, &part.0)?;
        Ok(AttributeCode {
            name,
            key,
            kind: part.1,
        })
    }
}

fn attribute_codes(alloc: Global, block: &Block) -> Result<NamedList<AttributeCode>, NoMemory>
    ensures { IfOk result (λ l. l ≡ map (attribute_of block.now) block.now.attributes) }
{
    let aliases = numbers_of(alloc, block.aliases.as_slice())?;
    let coding = AttributeCoding {
        block,
        aliases: &aliases,
    };
    named_by(alloc, &coding, block.attributes.as_slice())
}

/// A child relation, with its block's number.
#[derive(Drop)]
struct RelationCoding<'a>(&'a Keys);

impl<'a> Coding<Relation, RelationCode> for RelationCoding<'a> {
    ghost code = { λ s r. relation_of (number_in s.0.now) r };

    fn code(&self, alloc: Global, part: &Relation) -> Result<RelationCode, NoMemory> {
        Ok(RelationCode {
            name: part.name.copy(alloc)?,
            block: number_of(self.0, &part.block),
            priority: part.priority,
        })
    }
}

/// An event handler.
#[derive(Drop)]
struct HandlerCoding;

impl Coding<BlockEvent, HandlerCode> for HandlerCoding {
    ghost code = { λ _ h. handler_code h };

    fn code(&self, alloc: Global, part: &BlockEvent) -> Result<HandlerCode, NoMemory> {
        Ok(HandlerCode {
            event: part.event.copy(alloc)?,
            mask: part.mask,
            script: part.on.share()?,
        })
    }
}

/// A method.
#[derive(Drop)]
struct MethodCoding;

impl Coding<Method, MethodCode> for MethodCoding {
    ghost code = { λ _ m. method_code m };

    fn code(&self, alloc: Global, part: &Method) -> Result<MethodCode, NoMemory> {
        let name = part.name.copy(alloc)?;
        let parameters = codes_by(alloc, &FieldCoding, part.params.as_slice())?;
        Ok(MethodCode {
            name,
            parameters,
            result: part.returns,
            script: part.body.share()?,
        })
    }
}

/// A script that a block may lack.
fn shared(script: &Option<Script>) -> Result<Option<Script>, NoMemory>
    ensures { IfOk result (λ s. s ≡ script.now) }
{
    match script {
        Some(script) => Ok(Some(script.share()?)),
        None => Ok(None),
    }
}

/// A block. Children's blocks are told by number.
#[derive(Drop)]
pub(crate) struct BlockCoding<'a>(pub &'a Keys);

impl<'a> Coding<Block, BlockCode> for BlockCoding<'a> {
    ghost code = { λ s b. block_code (number_in s.0.now) b };

    fn code(&self, alloc: Global, part: &Block) -> Result<BlockCode, NoMemory> {
        let key = part.key.copy(alloc)?;
        let fields = field_codes(alloc, part.fields.as_slice())?;
        let attributes = attribute_codes(alloc, part)?;
        let relations = named_by(alloc, &RelationCoding(self.0), part.relations.as_slice())?;
        let handlers = codes_by(alloc, &HandlerCoding, part.events.as_slice())?;
        let methods = named_by(alloc, &MethodCoding, part.methods.as_slice())?;
        Ok(BlockCode {
            key,
            fields,
            attributes,
            relations,
            handlers,
            methods,
            exception: shared(&part.exception)?,
            rolled_back: shared(&part.rolled_back)?,
            remove: shared(&part.remove)?,
        })
    }
}
