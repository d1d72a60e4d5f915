//! The bytes of events, of commits and of images.
//!
//! The model is `decoded_event`, `decoded_payload` and `decoded_image`: what bytes are read as from the left, a value or the first
//! fault. A payload is a commit: the bytes of one event, or a group of several. `encode_event`, `encode_payload` and
//! `encode_image` append the one spelling of a value. `decode_event`, `decode_payload` and `decode_image` return a value exactly
//! when the bytes are its spelling. `read_fault` and `ListReader` read an image element by element. The crates above rely on these.
#![tactic(auto)]

mod decode;
mod element;
mod elements;
mod encode;
mod error;
mod filling;
mod image;
mod image_reader;
mod law;
mod lengths;
mod lists;
mod payload;
mod reader;
mod source;
mod spelled;
mod writing;

pub use decode::{decode_event, decode_image, decode_payload};
pub use elements::{MOST_BYTES, encode_count, encode_fault, spell_instance, spell_item, spell_tag};
pub use encode::{encode_done, encode_event, encode_group_head, encode_image, encode_payload};
pub use error::CodecError;
pub use image::{Image, Instances, Items, Tags};
pub use image_reader::{ListReader, read_fault};
pub use law::{image_is_spelled, spellings_of_commits, spellings_of_events, spellings_of_images};
pub use lengths::{instance_length, item_length, tag_length};
pub use payload::MOST_EVENTS;
pub use source::{Chain, ImageBytes, ImageSource};
