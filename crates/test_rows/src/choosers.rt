//! Which of the ready instances runs next: `first`, `last`, or a list of numbers, such as `3,1,4`, that are taken in
//! turn, again and again.
use commit::Choose;
use std::alloc::{AllocError, Global};

/// What picks the next instance.
#[derive(Drop)]
pub(crate) enum Chooser {
    First,
    Last,
    /// By these numbers, each modulo the number of ready instances.
    Listed(Numbers),
}

/// Numbers that come in turn, again and again.
#[derive(Drop)]
pub(crate) struct Numbers {
    numbers: Vec<usize>,
    // The place of the number that comes next.
    next: usize,
}

impl Chooser {
    /// The chooser with this name, if there is one.
    pub(crate) fn named(alloc: Global, name: &str) -> Result<Option<Self>, AllocError> {
        match name {
            "first" => Ok(Some(Chooser::First)),
            "last" => Ok(Some(Chooser::Last)),
            _ => Ok(Numbers::read(alloc, name)?.map(Chooser::Listed)),
        }
    }
}

impl Choose for Chooser {
    fn pick(&mut self, ready: usize) -> usize {
        match self {
            Chooser::First => 0,
            Chooser::Last => ready - 1,
            Chooser::Listed(numbers) => numbers.take() % ready,
        }
    }
}

impl Numbers {
    // The numbers in a text, with commas between them, if each part is a number.
    fn read(alloc: Global, text: &str) -> Result<Option<Self>, AllocError> {
        let mut numbers = Vec::new(alloc);
        for word in text.split(',') {
            match word.parse::<usize>() {
                Ok(number) => numbers.push(number)?,
                Err(_) => return Ok(None),
            }
        }
        Ok(Some(Numbers { numbers, next: 0 }))
    }

    // The next number, or 0 if there are none.
    fn take(&mut self) -> usize {
        let number = self.numbers.get(self.next).copied().unwrap_or(0);
        let behind = self.next.saturating_add(1);
        self.next = if behind < self.numbers.len() {
            behind
        } else {
            0
        };
        number
    }
}
