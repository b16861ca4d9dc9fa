//! The selectors of all rules.
ghost use Rattle.std.specs.Prelude.{◌≡◌, IfOk};
ghost use Rattle.deploy_model.specs.declared.choice.SelectRule.TheVariants as rules;
ghost use Rattle.router_steps.specs.Selection.{custom_name};
ghost use Rattle.initial_select.specs.Customs.{given_by};

use crate::{Custom, Selector};
use deploy_model::SelectRule;
use slee_value::NoMemory;

/// A selector of each rule.
#[derive(Drop)]
pub struct Selectors {
    whole: Selector,
    digits3: Selector,
    scheme: Selector,
    screened: Selector,
    ghost is_whole: { whole.rule ≡ rules.Whole },
    ghost is_digits3: { digits3.rule ≡ rules.Digits3 },
    ghost is_scheme: { scheme.rule ≡ rules.Scheme },
    ghost is_screened: { screened.rule ≡ rules.Screened },
}

impl Selectors {
    /// These selectors, each in its own place.
    pub fn new(whole: Selector, digits3: Selector, scheme: Selector, screened: Selector) -> Self
        requires whole { whole.rule ≡ rules.Whole }
        requires digits3 { digits3.rule ≡ rules.Digits3 }
        requires scheme { scheme.rule ≡ rules.Scheme }
        requires screened { screened.rule ≡ rules.Screened }
    {
        Selectors {
            whole,
            digits3,
            scheme,
            screened,
        }
    }

    /// What the rule gives to a text.
    pub fn pick(&self, rule: SelectRule, input: &[u8]) -> Result<Custom, NoMemory>
        ensures { IfOk result (λ custom. given_by custom ≡ custom_name rule input.now) }
    {
        match rule {
            SelectRule::Whole => self.whole.pick(input),
            SelectRule::Digits3 => self.digits3.pick(input),
            SelectRule::Scheme => self.scheme.pick(input),
            SelectRule::Screened => self.screened.pick(input),
        }
    }
}
