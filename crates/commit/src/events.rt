use std::slice;
use terms::Event;

/// The events of a commit, or none.
#[derive(Drop)]
pub(crate) enum Events {
    Nothing,
    One(Event),
    Several(Vec<Event>),
}

impl Events {
    ghost use Rattle.std.specs.Prelude.{◌≡◌};
    ghost use Rattle.commit.specs.Doubt.{events_in};

    /// The events, in their order.
    pub(crate) fn as_slice(&self) -> &[Event]
        ensures { result.now ≡ events_in self.now }
    {
        match self {
            Events::Nothing => &[],
            Events::One(event) => slice::from_ref(event),
            Events::Several(events) => events,
        }
    }
}
