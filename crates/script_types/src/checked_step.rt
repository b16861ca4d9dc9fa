//! Statements of checked scripts. Clauses see one through `step_of`, and a list of them through `steps_of`.
use crate::{Range, Symbol, Term, Who};
use slee_value::{Keep, Name, Text};

/// A step of a checked script.
#[derive(Drop)]
pub enum Step {
    Assign(Assigning),
    Entity(OnEntities),
    Activity(OnActivities),
    Timer(OnTimers),
    Say(Saying),
    Invoke(Call),
    If(Term, Vec<Step>, Vec<Step>),
    While(Term, Vec<Step>),
    For(Range, Vec<Step>),
}

/// A step that gives a value to something.
#[derive(Drop)]
pub enum Assigning {
    /// A new variable, in the place behind all others.
    New(Term),
    /// A variable, by its place in the scope.
    Variable(usize, Term),
    Field(Symbol<Name>, Term),
    /// An attribute of the activity, by its shared key.
    Attribute(Term, Symbol<Text>, Term),
}

/// The priority of a new child.
#[derive(Drop)]
pub enum Rank {
    /// That of its relation.
    Given(i8),
    /// What the script asks for.
    Asked(Term),
}

/// A step on child entities, each by its place in the scope.
#[derive(Drop)]
pub enum OnEntities {
    /// The relation, and the priority.
    Create(Symbol<Name>, Rank),
    Remove(usize),
    Priority(usize, Term),
}

/// A call of a child's method.
#[derive(Drop)]
pub struct Call {
    /// The child's place in the scope.
    pub child: usize,
    /// The number of its block.
    pub block: u32,
    /// The number of the method in that block.
    pub method: usize,
    pub arguments: Vec<Term>,
    /// Whether the result becomes a variable.
    pub keeps: bool,
}

/// A field of an event that is fired.
#[derive(Drop)]
pub struct FieldTerm {
    pub name: Name,
    pub term: Term,
}

/// A step on activities.
#[derive(Drop)]
pub enum OnActivities {
    Attach(Who, Term),
    Detach(Who, Term),
    /// The event, and whether it is masked from now on.
    Mask(Symbol<Text>, bool, Term),
    /// The event, the activity, the key of the only service that gets it, and the fields in the order of the text.
    Fire(Text, Term, Option<Text>, Vec<FieldTerm>),
    /// A new null activity, as a variable behind all others.
    Null,
    End(Term),
    /// The name, and the activity.
    Bind(Term, Term),
    Unbind(Term),
    Suspend(Term),
    Resume(Term),
}

/// A timer that is set.
#[derive(Drop)]
pub struct TimerStart {
    pub activity: Term,
    pub start: Term,
    pub repeat: Option<Recurrence>,
    /// Which missed occurrences are fired.
    pub keep: Keep,
}

/// The period of a timer, and how many times it occurs.
#[derive(Drop)]
pub struct Recurrence {
    pub period: Term,
    pub times: Term,
}

/// A step on timers.
#[derive(Drop)]
pub enum OnTimers {
    /// A new timer, as a variable behind all others.
    Start(Box<TimerStart>),
    Cancel(Term),
}

/// A step that says something or ends the script.
#[derive(Drop)]
pub enum Saying {
    Emit(Term),
    /// The block's key and the parameter's name with a dot between, and the amount.
    Usage(Text, Term),
    Return(Term),
    Throw(Term),
    Rollback,
}
