use crate::VaultError;
use disk::Disk;

/// A disk that was handed back, and why.
#[derive(Drop)]
pub struct Refused<D: Disk> {
    pub disk: D,
    pub error: VaultError,
}
