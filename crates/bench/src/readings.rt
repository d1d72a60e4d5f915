//! Readings of the clock.
use anyhow::Error;
use std::io;
use std::time::Instant;

/// The seconds between two readings.
pub(crate) fn seconds_between(
    start: io::Result<Instant>,
    end: io::Result<Instant>,
) -> Result<f64, Error> {
    Ok(end?.duration_since(start?).as_secs_f64())
}
