//! The two files of a store: creation, appends, turnovers and openings.
//!
//! The files stand for a graph and a set of facts (`Stands` of `specs/Stands.antt`), which a vault holds (`Holds` of
//! `specs/Store.antt`). The layer above uses `create`, `open`, `Vault::append`, `Vault::append_all` and `Vault::turn_by`: what each
//! leaves at each moment, and after `Ok`. An append takes any number of events: a crash leaves all of them or none.
#![tactic(auto)]

mod append;
mod creation;
mod error;
mod found;
mod gates;
mod groups;
mod heads;
mod history;
mod law;
mod opening;
mod reading;
mod refused;
mod turn;
mod vault;

pub use append::FIRST_GROUND;
pub use creation::create;
pub use error::VaultError;
pub use history::{half_a_commit, stores_go_on};
pub use law::one_store;
pub use opening::{Recovered, open};
pub use reading::{LiveSide, read_live};
pub use refused::Refused;
pub use vault::Vault;
