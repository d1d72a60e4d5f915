//! One side of a store: its bytes, and what they stand for.
//!
//! A side is a gate, a head, the canonical text of its graph, an image and a journal (`IsSide` of `specs/Side.antt`). The layer above
//! uses `read_side`, which returns what the bytes of a side stand for, `spell_side`, and the laws of `law`.
#![tactic(auto)]

mod error;
mod first;
mod fitting;
mod gate;
mod law;
mod next;
mod parts;
mod reading;
mod replay;
mod spelling;
mod taking;

pub use error::SideError;
pub use first::close_behind;
pub use gate::{FORMAT, Gate, HEAD, OPEN, gate_of};
pub use law::{one_item_each, one_meaning_of_a_side, sides_go_on};
pub use next::next_commit;
pub use reading::{Standing, read_side};
pub use spelling::spell_side;
