//! A selector: a closure that selects by a rule.
ghost use Rattle.std.specs.Prelude.{◌≡◌, IfOk};
ghost use Rattle.router_steps.specs.Selection.{custom_name};
ghost use Rattle.initial_select.specs.Customs.{given_by, PicksBy};

use crate::Custom;
use deploy_model::SelectRule;
use slee_value::NoMemory;

/// A closure that is given a text.
pub type Pick = Box<dyn Fn(&[u8]) -> Result<Custom, NoMemory> + Send + Sync>;

/// A closure of which it is known that it answers what its rule gives, or finds no memory.
#[derive(Drop)]
pub struct Selector {
    pub rule: SelectRule,
    pick: Pick,
    ghost callable: { Pick.IsAlwaysCallable pick },
    ghost by_rule: { PicksBy rule (Pick.post pick) },
}

impl Selector {
    /// The closure as a selector of the rule.
    pub fn new(rule: SelectRule, pick: Pick) -> Self
        requires callable { Pick.IsAlwaysCallable pick }
        requires by_rule { PicksBy rule (Pick.post pick) }
        ensures { result.rule ≡ rule }
    {
        Selector { rule, pick }
    }

    /// What its rule gives to a text.
    pub fn pick(&self, input: &[u8]) -> Result<Custom, NoMemory>
        ensures { IfOk result (λ custom. given_by custom ≡ custom_name self.now.rule input.now) }
    {
        answer_of(&self.pick, input)
    }
}

/// What the closure answers.
fn answer_of(pick: &Pick, input: &[u8]) -> Result<Custom, NoMemory>
    requires { Pick.IsAlwaysCallable pick.now }
    ensures { Pick.post pick.now input.entry result }
{
    pick(input)
}
