use crate::Inst;

/// Who put an item: the environment, or an instance, with the number of the put in its list, from 0.
///
/// The environment comes first, then the instances in their order; within one instance the number decides.
#[derive(Clone, Copy, Debug, PartialEq, Eq, PartialOrd, Ord)]
pub enum Producer {
    Env,
    By(Inst, u32),
}
