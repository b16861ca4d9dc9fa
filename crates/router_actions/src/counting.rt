//! Every line is counted, and a refused one does nothing else.
ghost use Rattle.std.specs.Prelude.{◌≡◌, ◌++◌, ◌∷◌, [], OnOk};
ghost use Rattle.router_steps.specs.Lines.{refused_line};
ghost use Rattle.router_steps.specs.Taking.{counted};
ghost use Rattle.router_draft.specs.Drafts.{CanBeMade, IsLow, laid};

use router_draft::{Base, Draft, change, reading};
use router_state::Change;
use router_steps::Refusal;
use slee_value::NoMemory;
use std::alloc::Global;

/// One more line was taken.
pub fn count<B: Base>(base: &B, draft: &mut Draft) -> Result<(), NoMemory>
    requires low { IsLow (B.state base.now) }
    requires made { CanBeMade (B.state base.now) draft.old }
    ensures state { OnOk result (laid (B.state base.now) draft.new ≡ counted (laid (B.state base.now) draft.old)) }
    ensures lines { OnOk result (draft.new.lines ≡ draft.old.lines) }
    ensures made { OnOk result (CanBeMade (B.state base.now) draft.new) }
{
    let _inputs = reading::inputs(base, draft);
    change(base, draft, Change::Taken)
}

/// The line is refused.
pub fn refuse(alloc: Global, draft: &mut Draft, why: Refusal) -> Result<(), NoMemory>
    ensures changes { OnOk result (draft.new.changes ≡ draft.old.changes) }
    ensures lines { OnOk result (draft.new.lines ≡ draft.old.lines ++ refused_line why ∷ []) }
{
    draft.tell(&router_text::refused(alloc, why)?)?;
    Ok(())
}
