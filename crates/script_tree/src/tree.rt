//! Scripts as trees of statements and expressions.
ghost use Rattle.std.specs.Prelude.{◌≡◌, ◌≤◌};
ghost use Rattle.script_tree.specs.Spelling.{prefix_level};

use crate::{Constant, Function, Identifier, Literal, Number, Operator, Verb};
use slee_value::Keep;

/// An expression.
#[derive(Drop)]
pub enum Expr {
    Leaf(Leaf),
    Unary(Prefix, Box<Expr>),
    /// An operator between two operands, and others of its level behind it with their right operands, joined from left to
    /// right. They stand side by side and not in one another, so that a long row of them is no deep tree.
    Chain(Box<(Expr, Operator, Expr)>, Vec<(Operator, Expr)>),
    Ask(Box<(Query, Expr)>),
    /// `(e)`: it means what `e` means, and costs nothing when it runs.
    Group(Box<Expr>),
}

/// An expression without parts.
#[derive(Drop)]
pub enum Leaf {
    Int(Number),
    Text(Literal),
    Constant(Constant),
    Variable(Identifier),
    /// `self.NAME`
    Field(Identifier),
    /// `event.NAME`
    EventField(Identifier),
    /// `table(NAME)`
    Table(Identifier),
    /// `count(RELATION)`
    Count(Identifier),
    /// `priority(CHILD)`
    Priority(Identifier),
}

/// What stands before its operand.
#[derive(Clone, Copy, Debug, PartialEq, Eq)]
pub enum Prefix {
    Negative,
    Not,
}

impl Prefix {
    /// The level of an expression behind it.
    pub fn level(self) -> u8
        ensures level { result ≡ prefix_level self }
        ensures some { 1 ≤ result }
        ensures most { result ≤ 6 }
    {
        match self {
            Prefix::Negative => 1,
            Prefix::Not => 6,
        }
    }
}

/// A function of an expression, with the names that stand beside it.
#[derive(Drop)]
pub enum Query {
    Plain(Function),
    /// `masked(TEXT, a)`
    Masked(Literal),
    /// `attr(a, NAME)`
    Attribute(Identifier),
    /// `profile(NAME, e, NAME)`
    Profile(Identifier, Identifier),
    /// `has_profile(NAME, e)`
    HasProfile(Identifier),
}

/// The entity itself, or a child.
#[derive(Drop)]
pub enum Who {
    Own,
    Child(Identifier),
}

/// What a `for` goes over: the entity's activities, or the children of a relation.
#[derive(Drop)]
pub enum Over {
    Activities,
    Children(Identifier),
}

/// A statement.
#[derive(Drop)]
pub enum Stmt {
    Assign(Assignment),
    Entity(EntityStmt),
    Activity(ActivityStmt),
    Timer(Box<TimerStmt>),
    /// `emit e;` and its kin
    Do(Verb, Expr),
    /// `usage NAME e;`
    Usage(Identifier, Expr),
    Rollback,
    If(Expr, Vec<Stmt>),
    IfElse(Expr, Vec<Stmt>, Vec<Stmt>),
    While(Expr, Vec<Stmt>),
    For(Identifier, Over, Vec<Stmt>),
}

/// A statement that gives a value to something.
#[derive(Drop)]
pub enum Assignment {
    /// `let NAME = e;`
    New(Identifier, Expr),
    /// `NAME = e;`
    Variable(Identifier, Expr),
    /// `self.NAME = e;`
    Field(Identifier, Expr),
    /// `attr(a, NAME) = e;`
    Attribute(Expr, Identifier, Expr),
}

/// A statement on child entities.
#[derive(Drop)]
pub enum EntityStmt {
    /// `create RELATION as NAME priority e;`
    Create(Identifier, Identifier, Option<Expr>),
    /// `remove NAME;`
    Remove(Identifier),
    /// `priority NAME e;`
    Priority(Identifier, Expr),
    /// `call CHILD.METHOD(e, ..) as NAME;`
    Call(Identifier, Identifier, Vec<Expr>, Option<Identifier>),
}

/// A statement on activities.
#[derive(Drop)]
pub enum ActivityStmt {
    /// `attach WHO to a;`
    Attach(Who, Expr),
    /// `detach WHO from a;`
    Detach(Who, Expr),
    /// `mask TEXT on a;`
    Mask(Literal, Expr),
    /// `unmask TEXT on a;`
    Unmask(Literal, Expr),
    /// `fire TEXT on a for TEXT {NAME: e, ..};`
    Fire(Literal, Expr, Option<Literal>, Vec<FieldValue>),
    /// `null as NAME;`
    Null(Identifier),
    /// `bind e to a;`
    Bind(Expr, Expr),
}

/// A field of an event that is fired.
#[derive(Drop)]
pub struct FieldValue {
    pub name: Identifier,
    pub value: Expr,
}

/// `timer NAME on a at e every e times e keep ..;`
#[derive(Drop)]
pub struct TimerStmt {
    pub name: Identifier,
    pub activity: Expr,
    pub start: Expr,
    /// The period, and how many times.
    pub repeat: Option<Repeat>,
    pub keep: Option<Keep>,
}

/// The period of a timer, and how many times it occurs.
#[derive(Drop)]
pub struct Repeat {
    pub period: Expr,
    pub times: Expr,
}
