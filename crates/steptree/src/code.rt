use crate::{Expression, Operator, Simple, Slot};

/// An operand that has no operands itself.
#[derive(Clone, Copy, Debug)]
pub enum Operand {
    Number(i64),
    Variable(Slot),
}

/// An operation on two operands.
#[derive(Clone, Copy, Debug)]
pub struct Pair {
    pub operator: Operator,
    pub left: Operand,
    pub right: Operand,
}

/// One more operation, on a value.
#[derive(Clone, Copy, Debug)]
pub enum Link {
    /// The value is the left operand.
    Before(Operator, Operand),
    /// The value is the right operand.
    After(Operator, Operand),
    /// The value is the left operand, and a pair the right one.
    BeforePair(Operator, Pair),
}

/// An expression in the form in which it is evaluated.
pub enum Formula {
    /// A number or a variable.
    Leaf(Operand),
    /// The sum of two variables.
    Sum(Slot, Slot),
    /// The sum of a variable and a number.
    SumWith(Slot, i64),
    /// Another operation on two variables.
    Variables(Operator, Slot, Slot),
    /// Another operation on a variable and a number.
    WithNumber(Operator, Slot, i64),
    /// An operation on any two operands.
    Two(Pair),
    /// An operation whose left operand is a pair.
    First(Operator, Pair, Operand),
    /// An operation whose right operand is a pair.
    Second(Operator, Operand, Pair),
    /// An operation whose left operand is a `First`: first its own operator, then that of the `First`.
    FirstThen(Operator, Operator, Pair, Operand, Operand),
    /// An operation whose left operand is a `Second`: first its own operator, then that of the `Second`.
    SecondThen(Operator, Operator, Operand, Pair, Operand),
    /// An operation on two pairs.
    Both(Operator, Pair, Pair),
    /// An operation on two operands, and more operations on its value, one after another.
    Chain(Pair, Vec<Link>),
    /// Any other expression.
    Deep(Expression),
}

impl Drop for Formula {
    // Written by hand, so that dropping a formula is one call everywhere.
    fn drop(self) {
        match self {
            Formula::Leaf(_) => {}
            Formula::Sum(_, _) => {}
            Formula::SumWith(_, _) => {}
            Formula::Variables(_, _, _) => {}
            Formula::WithNumber(_, _, _) => {}
            Formula::Two(_) => {}
            Formula::First(_, _, _) => {}
            Formula::Second(_, _, _) => {}
            Formula::FirstThen(_, _, _, _, _) => {}
            Formula::SecondThen(_, _, _, _, _) => {}
            Formula::Both(_, _, _) => {}
            Formula::Chain(_, _) => {}
            Formula::Deep(_) => {}
        }
    }
}

/// An instruction, with the places of the instructions that may come after it.
pub enum Instruction {
    /// Gives a variable the value of a formula.
    Assign {
        variable: Slot,
        value: Formula,
        next: usize,
    },
    /// Goes on at `first` if the condition is not 0, else at `second`.
    Branch {
        condition: Formula,
        first: usize,
        second: usize,
    },
    /// Makes the next turn of the innermost loop, or leaves the loop if none is left.
    Turn,
    /// The instance has ended.
    End,
    /// Opens a loop from `from` up to but not including `to`, and goes on at its `turn`.
    For {
        variable: Slot,
        from: Expression,
        to: Expression,
        turn: usize,
        begin: usize,
        after: usize,
    },
    /// Does a simple statement that is no assignment.
    Do {
        statement: Simple,
        next: usize,
    },
}

impl Drop for Instruction {
    // Written by hand, so that dropping an instruction is one call everywhere.
    fn drop(self) {
        match self {
            Instruction::End => {}
            Instruction::Assign {
                variable: _,
                value: _,
                next: _,
            } => {}
            Instruction::Branch {
                condition: _,
                first: _,
                second: _,
            } => {}
            Instruction::For {
                variable: _,
                from: _,
                to: _,
                turn: _,
                begin: _,
                after: _,
            } => {}
            Instruction::Turn => {}
            Instruction::Do {
                statement: _,
                next: _,
            } => {}
        }
    }
}

/// A loop that is open: the turns that are left go from `next` up to but not including `to`. A turn begins at the place
/// `begin`, and after the last one it goes on at `after`.
#[derive(Clone, Copy, Debug)]
pub struct Loop {
    pub variable: Slot,
    pub next: i64,
    pub to: i64,
    pub begin: usize,
    pub after: usize,
}

/// A body as a list of instructions, and the place of the first one.
#[derive(Drop)]
pub struct Code {
    pub instructions: Vec<Instruction>,
    pub start: usize,
}
