//! Numbers and truth values, which take no memory, as they are found in values.
ghost use Rattle.script_meaning.specs.Values.{int, flag};
ghost use Rattle.slee_effect.specs.declared.value.Val.{Val};
ghost use Rattle.script_run_machine.specs.Kinds.{Finds, NoInt, NoFlag};
ghost use Rattle.script_run_machine.specs.Lending.{value_lent};

use crate::Lent;

/// Numbers or truth values, as they are found in values.
pub trait Scalar: Copy {
    /// The value that one is.
    ghost value_of: { Self → Val };

    /// Holds of the values of other types.
    ghost is_other: { Val → Type 0 };

    /// The one that a value is, if it is one.
    fn within(lent: Lent) -> Option<Self>
        ensures { Finds value_of is_other (value_lent lent.entry) result };
}

impl Scalar for i64 {
    ghost value_of = { int };

    ghost is_other = { NoInt };

    #[inline(always)]
    fn within(lent: Lent) -> Option<i64> {
        lent.number()
    }
}

impl Scalar for bool {
    ghost value_of = { flag };

    ghost is_other = { NoFlag };

    #[inline(always)]
    fn within(lent: Lent) -> Option<bool> {
        lent.flag()
    }
}
