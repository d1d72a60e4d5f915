//! What a body does, told from its tree: each statement is carried out where it stands. It is plain and slow, and has no code in common with
//! what runs bodies.
use crate::random::Random;
use std::alloc::{AllocError, Global};
use steptree::{
    BUDGET, Block, Body, Components, Expression, Node, Operator, Simple, Slot, Statement,
};
use terms::{
    Addr, FaultKind, ItemCollection, Key, MAX_COMPONENTS, MOST_PUTS, Put, Tag, TagCollection,
};

/// The values of all items, drawn from a seed: mostly small ones, and one of some forty at an end of what 64 bits hold.
#[derive(Clone, Copy)]
pub(crate) struct Items {
    pub(crate) seed: u64,
}

impl Items {
    /// The value at an address: the same each time.
    pub(crate) fn value(&self, address: &Addr) -> i64 {
        let mut mixed = self.seed.wrapping_add(u64::from(address.collection.0));
        for component in address.key.components() {
            let sign = u64::from(*component < 0);
            mixed = mixed.wrapping_mul(0x9e37_79b9_7f4a_7c15) ^ component.unsigned_abs();
            mixed = mixed.wrapping_add(sign);
        }
        let mut random = Random::new(mixed);
        match random.below(40) {
            0 => i64::MAX,
            1 => i64::MIN,
            _ => random.below(12) as i64 - 4,
        }
    }
}

/// Why a body stops before its end.
#[derive(Clone, Copy, Debug)]
pub(crate) enum Halt {
    Fault(FaultKind),
    NoMemory,
}

impl From<AllocError> for Halt {
    ghost use Rattle.std.specs.Prelude.{◌≡◌};
    ghost use Rattle.test_rows.specs.declared.plain.Halt.TheVariants.{NoMemory};

    ghost from_gives = { λ _ halt. halt ≡ NoMemory };

    fn from(_: AllocError) -> Self {
        Halt::NoMemory
    }
}

impl From<FaultKind> for Halt {
    ghost use Rattle.std.specs.Prelude.{◌≡◌};
    ghost use Rattle.test_rows.specs.declared.plain.Halt.TheVariants.{Fault};

    ghost from_gives = { λ kind halt. halt ≡ Fault kind };

    fn from(kind: FaultKind) -> Self {
        Halt::Fault(kind)
    }
}

/// An instance while its body is told.
#[derive(Drop)]
pub(crate) struct Plain {
    alloc: Global,
    items: Items,
    variables: Vec<i64>,
    /// How many statements and turns of loops were made.
    pub(crate) counted: u32,
    /// What was read, in order.
    pub(crate) reads: Vec<(Addr, i64)>,
    /// What was put, in order.
    pub(crate) puts: Vec<Put>,
}

impl Plain {
    /// An instance with this key, whose step has this number of parameters and variables.
    pub(crate) fn new(
        alloc: Global,
        items: Items,
        key: &Key,
        names: usize,
    ) -> Result<Self, AllocError> {
        let mut variables = Vec::new(alloc);
        for component in key.components() {
            variables.push(*component)?;
        }
        for _ in variables.len()..names {
            variables.push(0)?;
        }
        Ok(Plain {
            alloc,
            items,
            variables,
            counted: 0,
            reads: Vec::new(alloc),
            puts: Vec::new(alloc),
        })
    }

    /// Carries out a body.
    pub(crate) fn carry_out(&mut self, body: &Body) -> Result<(), Halt> {
        tell(self, &body.read)?;
        tell(self, &body.write)
    }

    // Counts a statement, or a turn of a loop.
    fn count(&mut self) -> Result<(), FaultKind> {
        if self.counted >= BUDGET {
            return Err(FaultKind::Budget);
        }
        self.counted += 1;
        Ok(())
    }

    fn set(&mut self, variable: Slot, value: i64) {
        let place = variable.place();
        if place < self.variables.len() {
            self.variables[place] = value;
        }
    }

    fn value(&self, expression: &Expression) -> Result<i64, FaultKind> {
        value(expression, &self.variables)
    }

    // The key that these expressions give, from the left.
    fn key(&self, components: &Components) -> Result<Key, Halt> {
        let mut values = Vec::new(self.alloc);
        for expression in components.as_slice() {
            let value = self.value(expression)?;
            append(&mut values, value)?;
        }
        if values.len() > MAX_COMPONENTS {
            return Err(Halt::NoMemory);
        }
        Ok(Key::new(&values))
    }

    fn assign(&mut self, variable: Slot, expression: &Expression) -> Result<(), Halt> {
        self.count()?;
        let value = self.value(expression)?;
        self.set(variable, value);
        Ok(())
    }

    // Whether a condition holds.
    fn test(&mut self, condition: &Expression) -> Result<bool, Halt> {
        self.count()?;
        Ok(self.value(condition)? != 0)
    }

    // The values from which and to which a loop goes.
    fn ends(&mut self, from: &Expression, to: &Expression) -> Result<(i64, i64), Halt> {
        self.count()?;
        let from = self.value(from)?;
        Ok((from, self.value(to)?))
    }

    fn get(
        &mut self,
        variable: Slot,
        collection: ItemCollection,
        components: &Components,
    ) -> Result<(), Halt> {
        self.count()?;
        let key = self.key(components)?;
        let address = Addr { collection, key };
        let value = self.items.value(&address);
        append(&mut self.reads, (address, value))?;
        self.set(variable, value);
        Ok(())
    }

    fn put_item(
        &mut self,
        collection: ItemCollection,
        components: &Components,
        expression: &Expression,
    ) -> Result<(), Halt> {
        self.count()?;
        let key = self.key(components)?;
        let value = self.value(expression)?;
        self.put(Put::Item(Addr { collection, key }, value))
    }

    fn put_tag(&mut self, collection: TagCollection, components: &Components) -> Result<(), Halt> {
        self.count()?;
        let key = self.key(components)?;
        self.put(Put::Tag(Tag { collection, key }))
    }

    fn put(&mut self, put: Put) -> Result<(), Halt> {
        if self.puts.len() >= MOST_PUTS {
            return Err(Halt::Fault(FaultKind::TooManyPuts));
        }
        append(&mut self.puts, put)?;
        Ok(())
    }
}

fn append<T: Copy>(list: &mut Vec<T>, value: T) -> Result<(), AllocError> {
    list.push(value)?;
    Ok(())
}

// Carries out a block, statement after statement.
#[cycle(tell)]
fn tell(state: &mut Plain, block: &Block) -> Result<(), Halt> {
    for statement in &block.statements {
        tell_one(state, statement)?;
    }
    Ok(())
}

// Carries out a statement.
#[cycle(tell)]
fn tell_one(state: &mut Plain, statement: &Statement) -> Result<(), Halt> {
    match statement {
        Statement::Simple(simple) => tell_simple(state, simple),
        Statement::If {
            condition,
            first,
            second,
        } => {
            if state.test(condition)? {
                tell(state, first)
            } else {
                tell(state, second)
            }
        }
        Statement::For {
            variable,
            from,
            to,
            block,
        } => {
            let (from, to) = state.ends(from, to)?;
            for at in from..to {
                state.count()?;
                state.set(*variable, at);
                tell(state, block)?;
            }
            Ok(())
        }
    }
}

// Carries out a statement without blocks.
fn tell_simple(state: &mut Plain, statement: &Simple) -> Result<(), Halt> {
    match statement {
        Simple::Assign { variable, value } => state.assign(*variable, value),
        Simple::Get {
            variable,
            collection,
            components,
        } => state.get(*variable, *collection, components),
        Simple::PutItem {
            collection,
            components,
            value,
        } => state.put_item(*collection, components, value),
        Simple::PutTag {
            collection,
            components,
        } => state.put_tag(*collection, components),
    }
}

// The value of an expression, whose operands are evaluated from the left.
fn value(expression: &Expression, variables: &[i64]) -> Result<i64, FaultKind> {
    match &expression.node {
        Node::Number(number) => Ok(*number),
        Node::Variable(slot) => Ok(variables.get(slot.place()).copied().unwrap_or(0)),
        Node::Negation(operand) => {
            let operand = value(operand, variables)?;
            operand.checked_neg().ok_or(FaultKind::Overflow)
        }
        Node::Operation(operator, operands) => {
            let left = value(&operands.0, variables)?;
            let right = value(&operands.1, variables)?;
            operated(*operator, left, right)
        }
    }
}

fn operated(operator: Operator, left: i64, right: i64) -> Result<i64, FaultKind> {
    let held = match operator {
        Operator::Add => left.checked_add(right),
        Operator::Subtract => left.checked_sub(right),
        Operator::Multiply => left.checked_mul(right),
        Operator::Divide | Operator::Remainder if right == 0 => {
            return Err(FaultKind::DivisionByZero);
        }
        Operator::Divide => left.checked_div(right),
        Operator::Remainder => Some(left.checked_rem(right).unwrap_or(0)),
        Operator::Equal => Some(i64::from(left == right)),
        Operator::NotEqual => Some(i64::from(left != right)),
        Operator::Less => Some(i64::from(left < right)),
        Operator::LessOrEqual => Some(i64::from(left <= right)),
        Operator::Greater => Some(i64::from(left > right)),
        Operator::GreaterOrEqual => Some(i64::from(left >= right)),
    };
    held.ok_or(FaultKind::Overflow)
}
