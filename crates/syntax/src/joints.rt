//! What a token means before an operand, and after one.
ghost use Rattle.syntax.specs.Tokens.{lexeme_of};
ghost use Rattle.syntax.specs.Joints.{IsHead, IsJoint};
ghost use Rattle.syntax.specs.Expected.{head as head_of, joint as joint_of};

use crate::{Symbol, Token};
use steptree::Operator;

/// What an operand may begin with.
#[derive(Clone, Copy)]
pub(crate) enum Head<'a> {
    Minus,
    OpenBracket,
    Number(i64),
    Variable(&'a str),
    Other,
}

/// What joins an operand to the next one, or ends it.
#[derive(Clone, Copy)]
pub(crate) enum Joint {
    Product(Operator),
    Sum(Operator),
    Comparison(Operator),
    Closes,
    Ends,
}

impl<'a> Head<'a> {
    /// What an operand begins with if this is its first token.
    pub(crate) fn of(token: Token<'a>) -> Head<'a>
        ensures { IsHead (head_of (lexeme_of token.entry)) result }
    {
        match token {
            Token::Symbol(Symbol::Minus) => Head::Minus,
            Token::Symbol(Symbol::OpenRound) => Head::OpenBracket,
            Token::Number(value) => Head::Number(value),
            Token::Name(text) => Head::Variable(text),
            _ => Head::Other,
        }
    }
}

impl Joint {
    /// What this token does after an operand.
    pub(crate) fn of(token: Token<'_>) -> Joint
        ensures { IsJoint (joint_of (lexeme_of token.entry)) result }
    {
        let Token::Symbol(symbol) = token else {
            return Joint::Ends;
        };
        match symbol {
            Symbol::Star => Joint::Product(Operator::Multiply),
            Symbol::Slash => Joint::Product(Operator::Divide),
            Symbol::Percent => Joint::Product(Operator::Remainder),
            Symbol::Plus => Joint::Sum(Operator::Add),
            Symbol::Minus => Joint::Sum(Operator::Subtract),
            Symbol::Equal => Joint::Comparison(Operator::Equal),
            Symbol::NotEqual => Joint::Comparison(Operator::NotEqual),
            Symbol::Less => Joint::Comparison(Operator::Less),
            Symbol::LessOrEqual => Joint::Comparison(Operator::LessOrEqual),
            Symbol::Greater => Joint::Comparison(Operator::Greater),
            Symbol::GreaterOrEqual => Joint::Comparison(Operator::GreaterOrEqual),
            Symbol::CloseRound => Joint::Closes,
            _ => Joint::Ends,
        }
    }
}
