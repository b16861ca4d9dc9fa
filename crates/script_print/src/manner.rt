//! How a token stands among others where a script is printed: with blanks, or close to its neighbour.
ghost use Rattle.std.specs.Prelude.{◌≡◌, ◌<◌};
ghost use Rattle.script_print.specs.Layout.{manner, symbol_manner, fixed_manner, is_tight, ends_line, nesting, margin};

use script_tree::{Fixed, Lexeme, Symbol};

/// How a token stands among others.
#[derive(Clone, Copy)]
pub(crate) enum Manner {
    /// With a blank on each side.
    Plain,
    /// A function: with nothing before its `(`.
    Function,
    /// `(`
    Opening,
    /// `.`
    Dot,
    /// `)`, `,` and `:`
    Closing,
    /// `;`
    End,
    /// `{`
    BlockStart,
    /// `}`
    BlockEnd,
    /// `else`
    Otherwise,
}

impl Manner {
    pub(crate) fn of(token: &Lexeme) -> Self
        ensures { result ≡ manner token.now }
    {
        match token {
            Lexeme::Symbol(symbol) => Manner::of_symbol(*symbol),
            _ => Manner::Plain,
        }
    }

    fn of_symbol(symbol: Symbol) -> Self
        ensures { result ≡ symbol_manner symbol }
    {
        match symbol {
            Symbol::Fixed(fixed) => Manner::of_fixed(fixed),
            Symbol::Function(_) => Manner::Function,
            _ => Manner::Plain,
        }
    }

    fn of_fixed(fixed: Fixed) -> Self
        ensures { result ≡ fixed_manner fixed }
    {
        match fixed {
            Fixed::OpenRound => Manner::Opening,
            Fixed::Dot => Manner::Dot,
            Fixed::CloseRound | Fixed::Comma | Fixed::Colon => Manner::Closing,
            Fixed::Semicolon => Manner::End,
            Fixed::OpenCurly => Manner::BlockStart,
            Fixed::CloseCurly => Manner::BlockEnd,
            Fixed::Else => Manner::Otherwise,
            Fixed::Attr
            | Fixed::Masked
            | Fixed::Table
            | Fixed::Profile
            | Fixed::HasProfile
            | Fixed::Count
            | Fixed::Priority => Manner::Function,
            _ => Manner::Plain,
        }
    }

    /// Whether nothing stands between this and the next.
    pub(crate) fn is_tight(self, next: Manner) -> bool
        ensures { result ≡ is_tight self next }
    {
        match (self, next) {
            (_, Manner::Dot | Manner::Closing | Manner::End) => true,
            (Manner::Opening | Manner::Dot, _) => true,
            (Manner::Function, Manner::Opening) => true,
            _ => false,
        }
    }

    /// Whether a line ends between this and the next.
    pub(crate) fn ends_line(self, next: Manner) -> bool
        ensures { result ≡ ends_line self next }
    {
        match (self, next) {
            (Manner::BlockEnd, Manner::Otherwise) => false,
            (Manner::End | Manner::BlockStart | Manner::BlockEnd, _) => true,
            (_, Manner::BlockEnd) => true,
            _ => false,
        }
    }

    /// How many braces are open behind it, of so many before it.
    pub(crate) fn nesting(self, before: usize) -> usize
        requires { before < 18446744073709551615 }
        ensures { result ≡ nesting before self }
    {
        match self {
            Manner::BlockStart => before + 1,
            Manner::BlockEnd => before.saturating_sub(1),
            _ => before,
        }
    }

    /// How many braces are open round the line that begins with it.
    pub(crate) fn margin(self, before: usize) -> usize
        ensures { result ≡ margin before self }
    {
        match self {
            Manner::BlockEnd => before.saturating_sub(1),
            _ => before,
        }
    }
}
