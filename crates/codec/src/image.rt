ghost use Rattle.std.specs.Prelude.{◌≡◌};

use std::marker::Model;
use terms::{Addr, FaultKind, Inst, Producer, Tag};

/// The items of an image with their values and producers, in the order of their addresses.
#[derive(Drop)]
pub struct Items {
    items: Vec<(Addr, i64, Producer)>,
}

impl Model for Items {
    ghost use Rattle.std.specs.Prelude.{List};
    ghost use Rattle.codec.specs.Entries.{Item};

    ghost Value = { List Item };

    ghost view = { λ i. i.items.items };
}

impl Items {
    /// These items. It does not allocate.
    pub fn new(items: Vec<(Addr, i64, Producer)>) -> Self
        ensures { result ≡ items.items }
    {
        Items { items }
    }

    /// The items, in order.
    pub fn as_slice(&self) -> &[(Addr, i64, Producer)]
        ensures { result.now ≡ self.now }
    {
        &self.items
    }

    /// The items as a vector. It does not allocate.
    pub fn into_vec(self) -> Vec<(Addr, i64, Producer)>
        ensures { result.items ≡ self }
    {
        self.items
    }
}

/// The tags of an image, in their order, each with a mark whether the environment put it.
#[derive(Drop)]
pub struct Tags {
    tags: Vec<(Tag, bool)>,
}

impl Model for Tags {
    ghost use Rattle.std.specs.Prelude.{List};
    ghost use Rattle.codec.specs.Entries.{MarkedTag};

    ghost Value = { List MarkedTag };

    ghost view = { λ t. t.tags.items };
}

impl Tags {
    /// These tags. It does not allocate.
    pub fn new(tags: Vec<(Tag, bool)>) -> Self
        ensures { result ≡ tags.items }
    {
        Tags { tags }
    }

    /// The tags, in order.
    pub fn as_slice(&self) -> &[(Tag, bool)]
        ensures { result.now ≡ self.now }
    {
        &self.tags
    }

    /// The tags as a vector. It does not allocate.
    pub fn into_vec(self) -> Vec<(Tag, bool)>
        ensures { result.items ≡ self }
    {
        self.tags
    }
}

/// The done instances of an image, in their order.
#[derive(Drop)]
pub struct Instances {
    instances: Vec<Inst>,
}

impl Model for Instances {
    ghost use Rattle.std.specs.Prelude.{List};
    ghost use Rattle.terms.specs.declared.name.Inst.{Inst};

    ghost Value = { List Inst };

    ghost view = { λ i. i.instances.items };
}

impl Instances {
    /// These instances. It does not allocate.
    pub fn new(instances: Vec<Inst>) -> Self
        ensures { result ≡ instances.items }
    {
        Instances { instances }
    }

    /// The instances, in order.
    pub fn as_slice(&self) -> &[Inst]
        ensures { result.now ≡ self.now }
    {
        &self.instances
    }

    /// The instances as a vector. It does not allocate.
    pub fn into_vec(self) -> Vec<Inst>
        ensures { result.items ≡ self }
    {
        self.instances
    }
}

/// All that a store holds.
#[derive(Drop)]
pub struct Image {
    /// The instance at fault, if there is one.
    pub fault: Option<(Inst, FaultKind)>,
    pub items: Items,
    pub tags: Tags,
    pub done: Instances,
}
