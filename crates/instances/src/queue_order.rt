use terms::Key;

// The ready instances are put in order once at least one for this number of them has begun to wait since they last were, so that there are few sorts beside the waits.
const WORTH: usize = 32;

/// What a step knows of the order of its queue, in which its ready instances stand.
#[derive(Clone, Copy)]
pub(crate) struct QueueOrder {
    // Whether some key was put behind a greater one since the queue was last in order.
    mixed: bool,
    // How many instances have begun to wait since the queue was last put in order.
    waited: usize,
}

impl QueueOrder {
    /// Of an empty queue.
    pub(crate) fn new() -> Self {
        QueueOrder {
            mixed: false,
            waited: 0,
        }
    }

    /// Notes that these two stand behind one another from now on.
    pub(crate) fn note(&mut self, first: Option<&Key>, second: Option<&Key>) {
        if let (Some(first), Some(second)) = (first, second) {
            self.mixed = self.mixed || second < first;
        }
    }

    /// Notes that an instance begins to wait. Says whether the queue, of this length, is worth putting in order; then it counts as done.
    pub(crate) fn is_due(&mut self, length: usize) -> bool {
        self.waited = self.waited.saturating_add(1);
        let due = self.mixed && self.waited >= length / WORTH;
        if due {
            *self = QueueOrder::new();
        }
        due
    }
}
