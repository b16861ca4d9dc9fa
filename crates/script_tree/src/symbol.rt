//! The fixed words and signs of the language, each with its spelling.
ghost use Rattle.std.specs.Prelude.{◌≡◌};
ghost use Rattle.script_tree.specs.Grammar.{level_of};
ghost use Rattle.script_tree.specs.Words.{operator_text, constant_text, function_text, verb_text, fixed_text, symbol_text};

/// A sign or word between two operands.
#[derive(Clone, Copy, Debug, PartialEq, Eq)]
pub enum Operator {
    Or,
    And,
    Equal,
    NotEqual,
    Less,
    LessOrEqual,
    Greater,
    GreaterOrEqual,
    Join,
    Plus,
    Minus,
    Times,
    Divide,
    Remainder,
}

/// A word that is an expression by itself.
#[derive(Clone, Copy, Debug, PartialEq, Eq)]
pub enum Constant {
    True,
    False,
    Nothing,
    Now,
    Activity,
    Failure,
}

/// A function of one expression alone, as `text(e)`.
#[derive(Clone, Copy, Debug, PartialEq, Eq)]
pub enum Function {
    Text,
    Len,
    Active,
    Attached,
    Bound,
    Lookup,
    HasTimer,
}

/// The first word of a statement of one expression alone, as `emit e;`.
#[derive(Clone, Copy, Debug, PartialEq, Eq)]
pub enum Verb {
    End,
    Cancel,
    Unbind,
    Emit,
    Return,
    Throw,
    Suspend,
    Resume,
}

/// Each other word and sign of the grammar.
#[derive(Clone, Copy, Debug, PartialEq, Eq)]
pub enum Fixed {
    OpenRound,
    CloseRound,
    OpenCurly,
    CloseCurly,
    Dot,
    Comma,
    Colon,
    Semicolon,
    Assign,
    Let,
    Own,
    Attr,
    If,
    Else,
    While,
    For,
    In,
    Activities,
    Create,
    As,
    Priority,
    Remove,
    Attach,
    To,
    Detach,
    From,
    Mask,
    On,
    Unmask,
    Fire,
    Null,
    Timer,
    At,
    Every,
    Times,
    Keep,
    All,
    Last,
    Bind,
    Usage,
    Call,
    Rollback,
    Not,
    Event,
    Masked,
    Table,
    Profile,
    HasProfile,
    Count,
}

/// A word or sign that the grammar quotes, or the name of a function.
#[derive(Clone, Copy, Debug, PartialEq, Eq)]
pub enum Symbol {
    Operator(Operator),
    Constant(Constant),
    Function(Function),
    Verb(Verb),
    Fixed(Fixed),
}

impl Operator {
    /// Its bytes.
    pub fn as_bytes(self) -> &'static [u8]
        ensures { result.now ≡ operator_text self }
    {
        match self {
            Operator::Or => b"or",
            Operator::And => b"and",
            Operator::Equal => b"==",
            Operator::NotEqual => b"!=",
            Operator::Less => b"<",
            Operator::LessOrEqual => b"<=",
            Operator::Greater => b">",
            Operator::GreaterOrEqual => b">=",
            Operator::Join => b"++",
            Operator::Plus => b"+",
            Operator::Minus => b"-",
            Operator::Times => b"*",
            Operator::Divide => b"/",
            Operator::Remainder => b"%",
        }
    }
}

impl Operator {
    /// Its level: `or` has the highest, 8, and binds least.
    pub fn level(self) -> u8
        ensures { result ≡ level_of self }
    {
        match self {
            Operator::Or => 8,
            Operator::And => 7,
            Operator::Equal
            | Operator::NotEqual
            | Operator::Less
            | Operator::LessOrEqual
            | Operator::Greater
            | Operator::GreaterOrEqual => 5,
            Operator::Join => 4,
            Operator::Plus | Operator::Minus => 3,
            Operator::Times | Operator::Divide | Operator::Remainder => 2,
        }
    }
}

impl Constant {
    /// Its bytes.
    pub fn as_bytes(self) -> &'static [u8]
        ensures { result.now ≡ constant_text self }
    {
        match self {
            Constant::True => b"true",
            Constant::False => b"false",
            Constant::Nothing => b"none",
            Constant::Now => b"now",
            Constant::Activity => b"activity",
            Constant::Failure => b"failure",
        }
    }
}

impl Function {
    /// Its bytes.
    pub fn as_bytes(self) -> &'static [u8]
        ensures { result.now ≡ function_text self }
    {
        match self {
            Function::Text => b"text",
            Function::Len => b"len",
            Function::Active => b"active",
            Function::Attached => b"attached",
            Function::Bound => b"bound",
            Function::Lookup => b"lookup",
            Function::HasTimer => b"has_timer",
        }
    }
}

impl Verb {
    /// Its bytes.
    pub fn as_bytes(self) -> &'static [u8]
        ensures { result.now ≡ verb_text self }
    {
        match self {
            Verb::End => b"end",
            Verb::Cancel => b"cancel",
            Verb::Unbind => b"unbind",
            Verb::Emit => b"emit",
            Verb::Return => b"return",
            Verb::Throw => b"throw",
            Verb::Suspend => b"suspend",
            Verb::Resume => b"resume",
        }
    }
}

impl Fixed {
    /// Its bytes.
    pub fn as_bytes(self) -> &'static [u8]
        ensures { result.now ≡ fixed_text self }
    {
        match self {
            Fixed::OpenRound => b"(",
            Fixed::CloseRound => b")",
            Fixed::OpenCurly => b"{",
            Fixed::CloseCurly => b"}",
            Fixed::Dot => b".",
            Fixed::Comma => b",",
            Fixed::Colon => b":",
            Fixed::Semicolon => b";",
            Fixed::Assign => b"=",
            Fixed::Let => b"let",
            Fixed::Own => b"self",
            Fixed::Attr => b"attr",
            Fixed::If => b"if",
            Fixed::Else => b"else",
            Fixed::While => b"while",
            Fixed::For => b"for",
            Fixed::In => b"in",
            Fixed::Activities => b"activities",
            Fixed::Create => b"create",
            Fixed::As => b"as",
            Fixed::Priority => b"priority",
            Fixed::Remove => b"remove",
            Fixed::Attach => b"attach",
            Fixed::To => b"to",
            Fixed::Detach => b"detach",
            Fixed::From => b"from",
            Fixed::Mask => b"mask",
            Fixed::On => b"on",
            Fixed::Unmask => b"unmask",
            Fixed::Fire => b"fire",
            Fixed::Null => b"null",
            Fixed::Timer => b"timer",
            Fixed::At => b"at",
            Fixed::Every => b"every",
            Fixed::Times => b"times",
            Fixed::Keep => b"keep",
            Fixed::All => b"all",
            Fixed::Last => b"last",
            Fixed::Bind => b"bind",
            Fixed::Usage => b"usage",
            Fixed::Call => b"call",
            Fixed::Rollback => b"rollback",
            Fixed::Not => b"not",
            Fixed::Event => b"event",
            Fixed::Masked => b"masked",
            Fixed::Table => b"table",
            Fixed::Profile => b"profile",
            Fixed::HasProfile => b"has_profile",
            Fixed::Count => b"count",
        }
    }
}

impl Symbol {
    /// Its bytes.
    pub fn as_bytes(self) -> &'static [u8]
        ensures { result.now ≡ symbol_text self }
    {
        match self {
            Symbol::Operator(operator) => operator.as_bytes(),
            Symbol::Constant(constant) => constant.as_bytes(),
            Symbol::Function(function) => function.as_bytes(),
            Symbol::Verb(verb) => verb.as_bytes(),
            Symbol::Fixed(fixed) => fixed.as_bytes(),
        }
    }
}

/// The symbols that have the form of a name, in byte order.
pub const WORDS: [Symbol; 63] = [
    Symbol::Function(Function::Active),
    Symbol::Fixed(Fixed::Activities),
    Symbol::Constant(Constant::Activity),
    Symbol::Fixed(Fixed::All),
    Symbol::Operator(Operator::And),
    Symbol::Fixed(Fixed::As),
    Symbol::Fixed(Fixed::At),
    Symbol::Fixed(Fixed::Attach),
    Symbol::Function(Function::Attached),
    Symbol::Fixed(Fixed::Attr),
    Symbol::Fixed(Fixed::Bind),
    Symbol::Function(Function::Bound),
    Symbol::Fixed(Fixed::Call),
    Symbol::Verb(Verb::Cancel),
    Symbol::Fixed(Fixed::Count),
    Symbol::Fixed(Fixed::Create),
    Symbol::Fixed(Fixed::Detach),
    Symbol::Fixed(Fixed::Else),
    Symbol::Verb(Verb::Emit),
    Symbol::Verb(Verb::End),
    Symbol::Fixed(Fixed::Event),
    Symbol::Fixed(Fixed::Every),
    Symbol::Constant(Constant::Failure),
    Symbol::Constant(Constant::False),
    Symbol::Fixed(Fixed::Fire),
    Symbol::Fixed(Fixed::For),
    Symbol::Fixed(Fixed::From),
    Symbol::Fixed(Fixed::HasProfile),
    Symbol::Function(Function::HasTimer),
    Symbol::Fixed(Fixed::If),
    Symbol::Fixed(Fixed::In),
    Symbol::Fixed(Fixed::Keep),
    Symbol::Fixed(Fixed::Last),
    Symbol::Function(Function::Len),
    Symbol::Fixed(Fixed::Let),
    Symbol::Function(Function::Lookup),
    Symbol::Fixed(Fixed::Mask),
    Symbol::Fixed(Fixed::Masked),
    Symbol::Constant(Constant::Nothing),
    Symbol::Fixed(Fixed::Not),
    Symbol::Constant(Constant::Now),
    Symbol::Fixed(Fixed::Null),
    Symbol::Fixed(Fixed::On),
    Symbol::Operator(Operator::Or),
    Symbol::Fixed(Fixed::Priority),
    Symbol::Fixed(Fixed::Profile),
    Symbol::Fixed(Fixed::Remove),
    Symbol::Verb(Verb::Resume),
    Symbol::Verb(Verb::Return),
    Symbol::Fixed(Fixed::Rollback),
    Symbol::Fixed(Fixed::Own),
    Symbol::Verb(Verb::Suspend),
    Symbol::Fixed(Fixed::Table),
    Symbol::Function(Function::Text),
    Symbol::Verb(Verb::Throw),
    Symbol::Fixed(Fixed::Timer),
    Symbol::Fixed(Fixed::Times),
    Symbol::Fixed(Fixed::To),
    Symbol::Constant(Constant::True),
    Symbol::Verb(Verb::Unbind),
    Symbol::Fixed(Fixed::Unmask),
    Symbol::Fixed(Fixed::Usage),
    Symbol::Fixed(Fixed::While),
];
