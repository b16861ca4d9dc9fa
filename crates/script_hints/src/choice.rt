//! What may stand at a place of a script: kinds of tokens, and groups of them.
ghost use Rattle.std.specs.Prelude.{◌≡◌};
ghost use Rattle.script_hints.specs.Following.{opening};

use script_tree::{Fixed, Operator, Symbol};

/// A kind of token that may stand at a place: a name, a number, a text, or one word or sign.
#[derive(Clone, Copy)]
pub enum Choice {
    Name,
    Number,
    Text,
    Symbol(Symbol),
}

/// What several kinds of tokens begin, or go on with.
#[derive(Clone, Copy)]
pub enum Group {
    Statement,
    Expression,
    Operator,
}

/// All groups.
pub const GROUPS: [Group; 3] = [Group::Statement, Group::Expression, Group::Operator];

/// The symbols that don't have the form of a name.
pub const SIGNS: [Symbol; 21] = [
    Symbol::Fixed(Fixed::Semicolon),
    Symbol::Fixed(Fixed::Comma),
    Symbol::Fixed(Fixed::Colon),
    Symbol::Fixed(Fixed::Dot),
    Symbol::Fixed(Fixed::Assign),
    Symbol::Fixed(Fixed::OpenRound),
    Symbol::Fixed(Fixed::CloseRound),
    Symbol::Fixed(Fixed::OpenCurly),
    Symbol::Fixed(Fixed::CloseCurly),
    Symbol::Operator(Operator::Equal),
    Symbol::Operator(Operator::NotEqual),
    Symbol::Operator(Operator::Less),
    Symbol::Operator(Operator::LessOrEqual),
    Symbol::Operator(Operator::Greater),
    Symbol::Operator(Operator::GreaterOrEqual),
    Symbol::Operator(Operator::Join),
    Symbol::Operator(Operator::Plus),
    Symbol::Operator(Operator::Minus),
    Symbol::Operator(Operator::Times),
    Symbol::Operator(Operator::Divide),
    Symbol::Operator(Operator::Remainder),
];

impl Group {
    /// Text behind which each token of the group may stand.
    pub(crate) fn opening(self) -> &'static str
        ensures { result.now ≡ opening self }
    {
        match self {
            Group::Statement => "",
            Group::Expression => "emit",
            Group::Operator => "emit 0",
        }
    }
}
