/// A reserved word, which is never a name.
#[derive(Clone, Copy, Debug, PartialEq, Eq)]
pub enum Word {
    Env,
    Step,
    Var,
    Read,
    Write,
    Get,
    Put,
    If,
    Else,
    For,
    In,
}

/// A sign of one or two characters.
#[derive(Clone, Copy, Debug, PartialEq, Eq)]
pub enum Symbol {
    OpenBracket,
    CloseBracket,
    OpenRound,
    CloseRound,
    Less,
    Greater,
    OpenBrace,
    CloseBrace,
    Colon,
    Semicolon,
    Comma,
    Assign,
    Plus,
    Minus,
    Star,
    Slash,
    Percent,
    DoubleColon,
    Arrow,
    DoubleDot,
    Equal,
    NotEqual,
    LessOrEqual,
    GreaterOrEqual,
}

/// A token of a graph text.
#[derive(Clone, Copy, Debug, PartialEq, Eq)]
pub enum Token<'a> {
    /// A name that is not reserved.
    Name(&'a str),
    /// A number, at most `i64::MAX`.
    Number(i64),
    Word(Word),
    Symbol(Symbol),
    /// A character that begins no token, or a number that is too large. It is the last token, whatever follows it.
    Unknown,
}

/// A token and the position of its first byte.
#[derive(Clone, Copy, PartialEq, Eq)]
pub struct Placed<'a> {
    pub token: Token<'a>,
    pub place: usize,
}
