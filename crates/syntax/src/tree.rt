use steptree::{Name, Step};

/// A declared collection, and how many components its keys have.
#[derive(Clone, Copy)]
pub enum Declaration<'a> {
    Item { name: Name<'a>, components: usize },
    Tag { name: Name<'a>, components: usize },
}

/// A relation between two collections, or between the environment and one. All but a prescription have the position of
/// their first token.
#[derive(Clone, Copy)]
pub enum Relation<'a> {
    /// `<tag> :: (step);`
    Prescribes {
        tag: Name<'a>,
        step: Name<'a>,
    },
    /// `[item] -> (step);`
    Reads {
        place: usize,
        item: Name<'a>,
        step: Name<'a>,
    },
    /// `(step) -> [item];`
    PutsItem {
        place: usize,
        step: Name<'a>,
        item: Name<'a>,
    },
    /// `(step) -> <tag>;`
    PutsTag {
        place: usize,
        step: Name<'a>,
        tag: Name<'a>,
    },
    /// `env -> [item];`
    EnvironmentPutsItem {
        place: usize,
        item: Name<'a>,
    },
    /// `env -> <tag>;`
    EnvironmentPutsTag {
        place: usize,
        tag: Name<'a>,
    },
    /// `[item] -> env;`
    EnvironmentGets {
        place: usize,
        item: Name<'a>,
    },
}

/// A graph as it is written in its text.
pub struct Tree<'a> {
    pub declarations: Vec<Declaration<'a>>,
    pub relations: Vec<Relation<'a>>,
    pub steps: Vec<Step<'a>>,
}

impl<'a> Drop for Tree<'a> {
    // Written by hand, so that dropping a tree is one call everywhere.
    fn drop(self) {
        let Tree {
            declarations: _,
            relations: _,
            steps: _,
        } = self;
    }
}
