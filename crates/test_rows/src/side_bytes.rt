//! The bytes of a side, of lists in any order.
use crate::contents::Contents;
use codec::{MOST_BYTES, encode_count, encode_fault, spell_instance, spell_item, spell_tag};
use std::alloc::{AllocError, Global};
use terms::{Addr, Inst, Producer, Tag};

/// The bytes of a side of generation 1 that holds this, with the text of its graph and an empty journal.
pub(crate) fn side_of(alloc: Global, text: &[u8], store: &Contents) -> Result<Vec<u8>, AllocError> {
    let image = image_of(alloc, store)?;
    let mut bytes = Vec::new(alloc);
    bytes.extend_from_slice(&[1, 1])?;
    bytes.extend_from_slice(&1u64.to_le_bytes())?;
    encode_count(&mut bytes, counted(text.len()))?;
    bytes.extend_from_slice(text)?;
    encode_count(&mut bytes, counted(image.len()))?;
    bytes.extend_from_slice(&image)?;
    bytes.push(0)?;
    Ok(bytes)
}

fn image_of(alloc: Global, store: &Contents) -> Result<Vec<u8>, AllocError> {
    let mut bytes = Vec::new(alloc);
    encode_fault(&mut bytes, &store.fault)?;
    spell_items(&mut bytes, &store.items)?;
    spell_tags(&mut bytes, &store.tags)?;
    spell_instances(&mut bytes, &store.done)?;
    Ok(bytes)
}

fn spell_items(bytes: &mut Vec<u8>, items: &[(Addr, i64, Producer)]) -> Result<(), AllocError> {
    encode_count(bytes, counted(items.len()))?;
    let mut room = [0; MOST_BYTES];
    for item in items {
        let length = spell_item(&mut room, item);
        bytes.extend_from_slice(&room[..length])?;
    }
    Ok(())
}

fn spell_tags(bytes: &mut Vec<u8>, tags: &[(Tag, bool)]) -> Result<(), AllocError> {
    encode_count(bytes, counted(tags.len()))?;
    let mut room = [0; MOST_BYTES];
    for tag in tags {
        let length = spell_tag(&mut room, tag);
        bytes.extend_from_slice(&room[..length])?;
    }
    Ok(())
}

fn spell_instances(bytes: &mut Vec<u8>, instances: &[Inst]) -> Result<(), AllocError> {
    encode_count(bytes, counted(instances.len()))?;
    let mut room = [0; MOST_BYTES];
    for instance in instances {
        let length = spell_instance(&mut room, instance);
        bytes.extend_from_slice(&room[..length])?;
    }
    Ok(())
}

// A length in four bytes.
fn counted(length: usize) -> u32 {
    u32::try_from(length).unwrap_or(u32::MAX)
}
