use items::Items;
use maps::CollectionMap;
use terms::{FaultKind, Inst};

/// The parts of what a store holds.
#[derive(Drop)]
pub struct Parts {
    /// The instance at fault, if there is one.
    pub fault: Option<(Inst, FaultKind)>,
    /// The items. No instance waits for one.
    pub items: Items,
    /// The tags, each with whether the environment put it.
    pub tags: CollectionMap<bool>,
    /// The instances that are done, by the numbers of their steps.
    pub done: CollectionMap<()>,
}
