//! The script language of handlers: its tokens, its scripts, and what a text is read as.
#![tactic(auto)]

mod reading;

pub use crate::reading::parse;
pub use script_print::{one_spelling_one_tree, print, printed_is_read_as_itself};
pub use script_tree::{
    ActivityStmt, Assignment, Constant, EntityStmt, Expr, FieldValue, Function, Identifier,
    LITERAL_LIMIT, Leaf, Literal, NUMBER_LIMIT, Number, Operator, Over, Prefix, Query, Repeat,
    Script, Stmt, SyntaxBad, SyntaxFault, TimerStmt, Token, TokenKind, Tokens, Verb, Who, tokens,
};
pub use script_types::{
    AttributeCode, BlockCode, CodeList, CodePart, CodePlace, Codes, EventCode, FieldCode,
    HandlerCode, MethodCode, RelationCode, TableCode,
};
