use once_cell::race::OnceBox;
use std::alloc::{AllocError, Global};
use std::sync::Arc;

/// What fills a watch, once.
#[derive(Drop)]
pub struct Filler {
    cell: Arc<OnceBox<i64>>,
    // The room for the value, made with the watch.
    room: Box<i64>,
}

impl Filler {
    // Makes the room for the value.
    pub(crate) fn new(cell: Arc<OnceBox<i64>>, alloc: Global) -> Result<Filler, AllocError> {
        let room = Box::new(alloc, 0)?;
        Ok(Filler { cell, room })
    }

    /// Gives the watch its value. Whether a look finds it is shown by tests: no clause says so.
    pub fn fill(self, value: i64) {
        let Filler { cell, mut room } = self;
        *room = value;
        let _ = cell.set(room);
    }
}
