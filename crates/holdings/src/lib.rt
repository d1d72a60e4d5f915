//! What a store holds, while its files are read: the fault, the items, the tags and the instances that are done, in the maps that the
//! state in memory keeps.
//!
//! `Holdings` is filled from an image or event by event, looked at, and given to the state in memory, which takes its maps over.
//! `image_of` of `specs/Holdings.antt` is the image that lists it.
#![tactic(auto)]

mod hints;
mod holdings;
mod imaging;
mod law;
mod parts;
mod reading;

pub use hints::Hints;
pub use holdings::Holdings;
pub use law::images_of_maps;
pub use parts::Parts;
