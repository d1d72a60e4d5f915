use crate::{Block, Expression, Simple, Statement};

/// A name in a text, and the position of its first byte there.
#[derive(Clone, Copy, Debug)]
pub struct Name<'a> {
    pub text: &'a str,
    pub place: usize,
}

/// An expression with names.
pub type NamedExpression<'a> = Expression<Name<'a>>;

/// A statement with names and without blocks inside it.
pub type NamedSimple<'a> = Simple<Name<'a>, Name<'a>, Name<'a>, Vec<NamedExpression<'a>>>;

/// The statements of a block with names.
pub type NamedBlock<'a> = Block<Name<'a>, NamedSimple<'a>>;

/// A statement with names.
pub type NamedStatement<'a> = Statement<Name<'a>, NamedSimple<'a>>;

/// A step as it is written in its text.
pub struct Step<'a> {
    pub name: Name<'a>,
    pub parameters: Vec<Name<'a>>,
    pub variables: Vec<Name<'a>>,
    pub read: NamedBlock<'a>,
    pub write: NamedBlock<'a>,
}

impl<'a> Drop for Step<'a> {
    // Written by hand, so that dropping a step is one call everywhere.
    fn drop(self) {
        let Step {
            name: _,
            parameters: _,
            variables: _,
            read: _,
            write: _,
        } = self;
    }
}
