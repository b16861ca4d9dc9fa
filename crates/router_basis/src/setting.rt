//! What was deployed, and what an entity says when it goes.
use crate::{Basis, declared, masking};
use router_draft::Draft;
use router_moves::Setting;
use script_types::{EventCode, FieldCode, RelationCode};
use slee_value::{EntityId, Kind, Names, NoMemory, Text};
use std::alloc::Global;

impl<'a> Setting for Basis<'a> {
    #[tactic(auto, using(crate::proofs::DeployedLemmas::fields_are))]
    fn fields(&self, block: u32) -> &[FieldCode] {
        declared::fields(self.deployment.codes(), block)
    }

    fn field(&self, block: u32, name: &Text) -> Option<&FieldCode> {
        declared::field(self.deployment.codes(), block, name)
    }

    fn relation(&self, block: u32, name: &Text) -> Option<&RelationCode> {
        declared::relation(self.deployment.codes(), block, name)
    }

    #[tactic(auto, using(crate::proofs::DeployedLemmas::kind_is))]
    fn attribute_kind(&self, key: &Text) -> Option<Kind> {
        declared::attribute_kind(self.deployment.codes(), key)
    }

    #[tactic(auto, using(crate::proofs::DeployedLemmas::event_known))]
    fn is_event(&self, name: &Text) -> bool {
        declared::is_event(self.deployment.codes(), name)
    }

    #[tactic(auto, using(crate::proofs::DeployedLemmas::events_are))]
    fn event(&self, name: &Text) -> Option<&EventCode> {
        self.deployment.codes().events.find(name.as_bytes())
    }

    fn service_named(&self, key: &Text) -> Option<u32> {
        self.deployment.service_named(key.as_str())
    }

    fn masked_on_attach(&self, alloc: Global, block: u32) -> Result<Names, NoMemory> {
        masking::masked_on_attach(alloc, self.deployment.codes(), block)
    }

    fn last_words(
        &self,
        alloc: Global,
        draft: &Draft,
        entity: EntityId,
    ) -> Result<Vec<Text>, NoMemory> {
        self.words_of(alloc, draft, entity)
    }
}
