//! What an entity says when it goes, with the changes so far laid over the state.
ghost use Rattle.std.specs.Prelude.{◌≡◌, IfOk, map};
ghost use Rattle.script_meaning.specs.Removal.{said};
ghost use Rattle.router_state.specs.Fields.{field_at};
ghost use Rattle.router_steps.specs.Going.{lines_of_parting};
ghost use Rattle.router_draft.specs.Drafts.{laid};

use crate::Basis;
use rollback_calls::OwnFields;
use router_draft::{Draft, reading};
use slee_value::{EntityId, Name, NoMemory, Text, Value};
use std::alloc::Global;

/// The fields of entities, with the changes so far laid over the state.
#[derive(Drop)]
struct LaidFields<'a> {
    basis: &'a Basis<'a>,
    draft: &'a Draft,
}

impl<'a> OwnFields for LaidFields<'a> {
    ghost field_of = { λ l e name. field_at (laid l.basis.now l.draft.now).fields e.0 name };

    fn field(
        &self,
        alloc: Global,
        entity: EntityId,
        name: &Name,
    ) -> Result<Option<Value>, NoMemory> {
        match reading::field(self.basis, self.draft, entity, name) {
            Some(value) => Ok(Some(value.copy(alloc)?)),
            None => Ok(None),
        }
    }
}

/// The lines of these texts.
fn lines_of(alloc: Global, entity: EntityId, texts: &[Text]) -> Result<Vec<Text>, NoMemory>
    ensures { IfOk result (λ lines. lines.items ≡ map (said entity) texts.now) }
{
    let mut lines = Vec::new(alloc);
    'texts: for text in texts {
        lines.push(router_text::said(alloc, entity, text)?)?;
    }
    Ok(lines)
}

impl<'a> Basis<'a> {
    /// What an entity says when it goes. Its script reads its own fields alone.
    #[tactic(auto, using(crate::proofs::PartingLemmas::are_checked, crate::proofs::PartingLemmas::says_all, crate::proofs::PartingLemmas::says_nothing))]
    pub(crate) fn words_of(
        &self,
        alloc: Global,
        draft: &Draft,
        entity: EntityId,
    ) -> Result<Vec<Text>, NoMemory>
        ensures { IfOk result (λ all. all.items ≡ lines_of_parting (laid self.now draft.now) entity.0) }
    {
        let Some(block) = reading::block(self, draft, entity) else {
            return Ok(Vec::new(alloc));
        };
        let fields = LaidFields { basis: self, draft };
        let texts = rollback_calls::last_words(
            alloc,
            self.deployment.codes(),
            block,
            entity,
            &fields,
        )?;
        lines_of(alloc, entity, &texts)
    }
}
