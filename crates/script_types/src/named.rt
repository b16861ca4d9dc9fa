//! What has a name of its own.
ghost use Rattle.std.specs.Prelude.{◌≡◌};

use crate::{AttributeCode, EventCode, FieldCode, MethodCode, RelationCode, TableCode};
use slee_value::{Kind, Name, Text};

/// What has a name of its own.
pub trait Named {
    ghost use Rattle.std.specs.Prelude.{ℕ, List};

    ghost name_of: { Self → List ℕ };

    fn name(&self) -> &str
        ensures { result.now ≡ name_of self.now };
}

impl Named for Name {
    ghost name_of = { λ n. n };

    fn name(&self) -> &str {
        self.as_str()
    }
}

impl Named for Text {
    ghost name_of = { λ t. t };

    fn name(&self) -> &str {
        self.as_str()
    }
}

impl Named for FieldCode {
    ghost name_of = { λ x. x.name };

    fn name(&self) -> &str {
        self.name.as_str()
    }
}

impl Named for EventCode {
    ghost name_of = { λ x. x.name };

    fn name(&self) -> &str {
        self.name.as_str()
    }
}

impl Named for TableCode {
    ghost name_of = { λ x. x.name };

    fn name(&self) -> &str {
        self.name.as_str()
    }
}

impl Named for AttributeCode {
    ghost name_of = { λ x. x.name };

    fn name(&self) -> &str {
        self.name.as_str()
    }
}

impl Named for RelationCode {
    ghost name_of = { λ x. x.name };

    fn name(&self) -> &str {
        self.name.as_str()
    }
}

impl Named for MethodCode {
    ghost name_of = { λ x. x.name };

    fn name(&self) -> &str {
        self.name.as_str()
    }
}

impl Named for (Name, Kind) {
    ghost name_of = { λ x. x.0 };

    fn name(&self) -> &str {
        self.0.as_str()
    }
}

impl Named for (Name, Name) {
    ghost name_of = { λ x. x.0 };

    fn name(&self) -> &str {
        self.0.as_str()
    }
}
