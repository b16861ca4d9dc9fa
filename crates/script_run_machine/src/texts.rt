//! Texts that scripts make.
ghost use Rattle.std.specs.Prelude.{◌≡◌, ◌++◌, pos, length, string_bytes, IfOk, OnOk};
ghost use Rattle.std.specs.Fmt.{signed_decimal};
ghost use Rattle.script_meaning.specs.Values.{two_texts, joined, text_of_int, text_of_bool, with_text, int, text};
ghost use Rattle.script_meaning.specs.Running.{give};
ghost use Rattle.script_run_machine.specs.Agreeing.{Agrees, AgreesAs};
ghost use Rattle.script_run_machine.specs.Lending.{value_lent};

use crate::kinds::{flag_of, int_of};
use crate::{Lent, Machine, Stop};
use itoa::Buffer;
use slee_effect::Val;
use slee_value::{NoMemory, Text, Value};
use std::alloc::Global;

/// The most bytes of a text that a script makes.
pub const TEXT_LIMIT: usize = 4_096;

/// Writes a number behind a text.
pub fn write_number(whole: &mut String, n: i64) -> Result<(), NoMemory>
    ensures { OnOk result (string_bytes whole.new ≡ string_bytes whole.old ++ signed_decimal n) }
{
    let mut digits = Buffer::new();
    whole.push_str(digits.format(n))?;
    Ok(())
}

fn decimal(alloc: Global, n: i64) -> Result<Text, NoMemory>
    ensures { IfOk result (λ t. t ≡ signed_decimal n) }
{
    let mut digits = Buffer::new();
    Text::from_str(alloc, digits.format(n))
}

impl Machine<'_> {
    /// A number as text.
    #[tactic(auto, using(crate::proofs::KindLemmas::no_int_stays))]
    pub fn text_of_int(&self, alloc: Global, x: Lent) -> Result<Val, Stop>
        ensures { Agrees (text_of_int (value_lent x.entry)) self.now self.now result }
    {
        let n = int_of(x)?;
        Ok(Val::Plain(Value::Text(decimal(alloc, n)?)))
    }

    /// A truth value as text.
    #[tactic(auto, using(crate::proofs::KindLemmas::no_flag_stays))]
    pub fn text_of_bool(&self, alloc: Global, x: Lent) -> Result<Val, Stop>
        ensures { Agrees (text_of_bool (value_lent x.entry)) self.now self.now result }
    {
        let word = if flag_of(x)? { "true" } else { "false" };
        Ok(Val::Plain(Value::Text(Text::from_str(alloc, word)?)))
    }
}
