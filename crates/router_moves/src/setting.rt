//! What moves ask beside the state: what was deployed, and what an entity says when it goes.
ghost use Rattle.std.specs.Prelude.{◌≡◌, IfOk, option_copied};
ghost use Rattle.script_types.specs.Codes.{named};
ghost use Rattle.deploy_model.specs.Deployed.{attribute_kind, block_fields, is_event, masked_on_attach, relation_of, service_named};
ghost use Rattle.router_steps.specs.Going.{lines_of_parting};
ghost use Rattle.router_draft.specs.Drafts.{laid};

use router_draft::{Base, Draft};
use script_types::{EventCode, FieldCode, RelationCode};
use slee_value::{EntityId, Kind, Names, NoMemory, Text};
use std::alloc::Global;

/// A state with its deployment and its scripts.
pub trait Setting: Base {
    /// The fields of a block.
    fn fields(&self, block: u32) -> &[FieldCode]
        ensures { result.now ≡ block_fields (Self.state self.now).deployment block };

    /// The field of a block by its name.
    fn field(&self, block: u32, name: &Text) -> Option<&FieldCode>
        ensures { option_copied result ≡ named (λ f. f.name) name.now (block_fields (Self.state self.now).deployment block) };

    /// The relation of a block by its name.
    fn relation(&self, block: u32, name: &Text) -> Option<&RelationCode>
        ensures { option_copied result ≡ relation_of (Self.state self.now).deployment block name.now };

    /// The type of the attribute of activities that has this key, in some block.
    fn attribute_kind(&self, key: &Text) -> Option<Kind>
        ensures { result ≡ attribute_kind (Self.state self.now).deployment key.now };

    /// Whether the event is declared or built in.
    fn is_event(&self, name: &Text) -> bool
        ensures { result ≡ is_event (Self.state self.now).deployment name.now };

    /// The event type that is declared by this name.
    fn event(&self, name: &Text) -> Option<&EventCode>
        ensures { option_copied result ≡ named (λ e. e.name) name.now (Self.state self.now).deployment.events };

    /// The number of the service of this key.
    fn service_named(&self, key: &Text) -> Option<u32>
        ensures { result ≡ service_named (Self.state self.now).deployment key.now };

    /// The events that an entity of this block masks where it is attached.
    fn masked_on_attach(&self, alloc: Global, block: u32) -> Result<Names, NoMemory>
        ensures { IfOk result (λ names. names ≡ masked_on_attach (Self.state self.now).deployment block) };

    /// What an entity says when it goes, in the state with a step's changes so far laid over it.
    fn last_words(
        &self,
        alloc: Global,
        draft: &Draft,
        entity: EntityId,
    ) -> Result<Vec<Text>, NoMemory>
        ensures { IfOk result (λ all. all.items ≡ lines_of_parting (laid (Self.state self.now) draft.now) entity.0) };
}
