//! The bytes of a file in memory.

/// Fills the buffer with the bytes from a place on, and with zeros past the end.
pub(crate) fn give(file: &[u8], at: u64, buffer: &mut [u8]) {
    let from = usize::try_from(at).unwrap_or(usize::MAX);
    for (place, byte) in buffer.iter_mut().enumerate() {
        *byte = match file.get(from.saturating_add(place)) {
            Some(there) => *there,
            None => 0,
        };
    }
}

/// Writes the bytes from a place on, past the end too; nothing if the file would then be longer than `most`.
pub(crate) fn written(file: &mut Vec<u8>, at: u64, bytes: &[u8], most: usize) -> Option<()> {
    let from = usize::try_from(at).ok()?;
    let to = from.checked_add(bytes.len())?;
    if to > most {
        return None;
    }
    if file.len() < to {
        file.resize(to, 0).ok()?;
    }
    file.as_mut_slice()
        .get_mut(from..to)?
        .copy_from_slice(bytes);
    Some(())
}
