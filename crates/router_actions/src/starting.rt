//! External activities start (JSR 240, chapter 7).
ghost use Rattle.std.specs.Prelude.{◌≡◌, ◌++◌, ◌∷◌, [], is_none, IsTrue, OnOk};
ghost use Rattle.router_state.specs.Changes.{after_change};
ghost use Rattle.router_state.specs.Contexts.{external};
ghost use Rattle.router_state.specs.declared.change.Change.TheVariants as changes;
ghost use Rattle.router_state.specs.declared.rows.AcKind.TheVariants as kinds;
ghost use Rattle.router_steps.specs.Lines.{started_line};
ghost use Rattle.router_draft.specs.Drafts.{CanBeMade, IsLow, laid};

use router_draft::{Base, Draft, change, reading};
use router_state::{AcKind, Change};
use slee_value::{Name, NoMemory};
use std::alloc::Global;

/// An external activity of this name starts.
pub fn start<B: Base>(
    alloc: Global,
    base: &B,
    draft: &mut Draft,
    name: Name,
) -> Result<(), NoMemory>
    requires low { IsLow (B.state base.now) }
    requires new { IsTrue (is_none (external (laid (B.state base.now) draft.old).activities name)) }
    requires made { CanBeMade (B.state base.now) draft.old }
    ensures state { OnOk result (laid (B.state base.now) draft.new ≡ after_change (changes.Start (kinds.External name)) (laid (B.state base.now) draft.old)) }
    ensures lines { OnOk result (draft.new.lines ≡ draft.old.lines ++ started_line (laid (B.state base.now) draft.old).next_activity name ∷ []) }
    ensures made { OnOk result (CanBeMade (B.state base.now) draft.new) }
{
    let number = reading::next_activity(base, draft);
    draft.tell(&router_text::started(alloc, number, name.as_str())?)?;
    let kind = AcKind::External(name);
    change(base, draft, Change::Start { kind })
}
