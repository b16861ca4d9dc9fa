//! Scripts of the language of handlers: their tokens, the tree of their grammar, and their text.
#![tactic(auto)]

mod fault;
mod identifier;
mod lexeme;
mod lexer;
mod literal;
mod name_ref;
mod number;
mod quote;
mod reserve;
mod scanning;
mod script;
mod sign;
mod symbol;
mod token;
mod tree;
mod written;

pub use fault::{Misfit, SyntaxBad, SyntaxFault};
pub use identifier::Identifier;
pub use lexeme::{Lexeme, Lexemes};
pub use lexer::{Lexed, lex, lexemes};
pub use literal::{LITERAL_LIMIT, Literal};
pub use name_ref::NameRef;
pub use number::{NUMBER_LIMIT, Number};
pub use scanning::{Place, fault_in, place_of_token, tokens};
pub use script::Script;
pub use symbol::{Constant, Fixed, Function, Operator, Symbol, Verb, WORDS};
pub use token::{Token, TokenKind, Tokens};
pub use tree::{
    ActivityStmt, Assignment, EntityStmt, Expr, FieldValue, Leaf, Over, Prefix, Query, Repeat,
    Stmt, TimerStmt, Who,
};
