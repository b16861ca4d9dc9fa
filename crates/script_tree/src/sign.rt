//! Signs of one or two bytes.
ghost use Rattle.std.specs.Prelude.{◌≡◌};
ghost use Rattle.script_tree.specs.Lexer.{sign_cut, sign_of_one, sign_of_two};

use crate::lexeme::{Cut, Lexeme};
use crate::{Fixed, Operator, Symbol};

/// The sign that begins with a byte: one of two bytes, else one of one byte.
pub fn sign(first: u8, rest: &[u8]) -> Cut
    ensures { result ≡ sign_cut first rest.now }
{
    if let [second, ..] = rest {
        if let Some(symbol) = sign_of_two(first, *second) {
            return Cut {
                lexeme: Lexeme::Symbol(symbol),
                size: 2,
            };
        }
    }
    match sign_of_one(first) {
        Some(symbol) => Cut {
            lexeme: Lexeme::Symbol(symbol),
            size: 1,
        },
        None => Cut {
            lexeme: Lexeme::Bad,
            size: 1,
        },
    }
}

fn sign_of_two(first: u8, second: u8) -> Option<Symbol>
    ensures { result ≡ sign_of_two first second }
{
    let operator = match (first, second) {
        (b'=', b'=') => Operator::Equal,
        (b'!', b'=') => Operator::NotEqual,
        (b'<', b'=') => Operator::LessOrEqual,
        (b'>', b'=') => Operator::GreaterOrEqual,
        (b'+', b'+') => Operator::Join,
        _ => return None,
    };
    Some(Symbol::Operator(operator))
}

fn sign_of_one(b: u8) -> Option<Symbol>
    ensures { result ≡ sign_of_one b }
{
    match b {
        b'(' => Some(Symbol::Fixed(Fixed::OpenRound)),
        b')' => Some(Symbol::Fixed(Fixed::CloseRound)),
        b'{' => Some(Symbol::Fixed(Fixed::OpenCurly)),
        b'}' => Some(Symbol::Fixed(Fixed::CloseCurly)),
        b'.' => Some(Symbol::Fixed(Fixed::Dot)),
        b',' => Some(Symbol::Fixed(Fixed::Comma)),
        b':' => Some(Symbol::Fixed(Fixed::Colon)),
        b';' => Some(Symbol::Fixed(Fixed::Semicolon)),
        b'=' => Some(Symbol::Fixed(Fixed::Assign)),
        b'<' => Some(Symbol::Operator(Operator::Less)),
        b'>' => Some(Symbol::Operator(Operator::Greater)),
        b'+' => Some(Symbol::Operator(Operator::Plus)),
        b'-' => Some(Symbol::Operator(Operator::Minus)),
        b'*' => Some(Symbol::Operator(Operator::Times)),
        b'/' => Some(Symbol::Operator(Operator::Divide)),
        b'%' => Some(Symbol::Operator(Operator::Remainder)),
        _ => None,
    }
}
