//! Values that rise: each is less than those after it, and equal only to itself.
//!
//! Each line has the bytes of one value. For `rising puts` and `rising instances` these are ends of instances, which for
//! puts have one put; for `rising addresses` and `rising tags`, events of the environment; for `rising producers`,
//! images of one item.
use crate::bytes::bytes_of;
use codec::{decode_event, decode_image};
use std::alloc::{AllocError, Global};
use terms::{Addr, Event, Inst, MAX_COMPONENTS, Producer, Put, Tag};
use test_cases::Names;

/// Whether the values of the lines rise.
pub(crate) fn answer(
    alloc: Global,
    names: &Names,
    kind: &str,
    lines: &str,
) -> Result<String, AllocError> {
    let mut values = Values::new(alloc);
    if values.take_lines(alloc, names, kind, lines)? {
        values.told(alloc, kind)
    } else {
        String::from_str(alloc, "no bytes\n")
    }
}

struct Values {
    addresses: Vec<Addr>,
    tags: Vec<Tag>,
    instances: Vec<Inst>,
    puts: Vec<Put>,
    producers: Vec<Producer>,
}

impl Drop for Values {
    // By hand, so that dropping the values is one call, wherever they are dropped.
    fn drop(self) {
        let Values {
            addresses: _,
            tags: _,
            instances: _,
            puts: _,
            producers: _,
        } = self;
    }
}

impl Values {
    fn new(alloc: Global) -> Self {
        Values {
            addresses: Vec::new(alloc),
            tags: Vec::new(alloc),
            instances: Vec::new(alloc),
            puts: Vec::new(alloc),
            producers: Vec::new(alloc),
        }
    }

    // Takes the values of the lines, and returns whether each of them has bytes.
    fn take_lines(
        &mut self,
        alloc: Global,
        names: &Names,
        kind: &str,
        lines: &str,
    ) -> Result<bool, AllocError> {
        for line in lines.lines() {
            match bytes_of(alloc, names, line)? {
                Some(bytes) => self.take(alloc, kind, &bytes)?,
                None => return Ok(false),
            }
        }
        Ok(true)
    }

    fn take(&mut self, alloc: Global, kind: &str, bytes: &[u8]) -> Result<(), AllocError> {
        if kind == "producers" {
            self.take_image(alloc, bytes)
        } else {
            self.take_event(alloc, bytes)
        }
    }

    fn take_event(&mut self, alloc: Global, bytes: &[u8]) -> Result<(), AllocError> {
        match decode_event(alloc, bytes, MAX_COMPONENTS) {
            Ok(event) => self.take_names(&event),
            Err(_) => Ok(()),
        }
    }

    fn take_names(&mut self, event: &Event) -> Result<(), AllocError> {
        match event {
            Event::EnvItem(address, _) => self.addresses.push(*address)?,
            Event::EnvTag(tag) => self.tags.push(*tag)?,
            Event::Done(instance, puts) => {
                self.instances.push(*instance)?;
                self.puts.extend_from_slice(puts.as_slice())?;
            }
            Event::Stopped(_, _) => {}
        }
        Ok(())
    }

    fn take_image(&mut self, alloc: Global, bytes: &[u8]) -> Result<(), AllocError> {
        match decode_image(alloc, bytes, MAX_COMPONENTS) {
            Ok(image) => self.take_producers(image.items.as_slice()),
            Err(_) => Ok(()),
        }
    }

    fn take_producers(&mut self, items: &[(Addr, i64, Producer)]) -> Result<(), AllocError> {
        for (_, _, producer) in items {
            self.producers.push(*producer)?;
        }
        Ok(())
    }

    fn told(&self, alloc: Global, kind: &str) -> Result<String, AllocError> {
        let (count, do_rise) = match kind {
            "addresses" => (self.addresses.len(), rise(&self.addresses)),
            "tags" => (self.tags.len(), rise(&self.tags)),
            "instances" => (self.instances.len(), rise(&self.instances)),
            "puts" => (self.puts.len(), rise(&self.puts)),
            "producers" => (self.producers.len(), rise(&self.producers)),
            _ => return String::from_str(alloc, "no such kind\n"),
        };
        let told = if do_rise { "rise" } else { "do not rise" };
        format!(in alloc; "{count} {told}\n")
    }
}

// Whether any two values compare as their places do.
fn rise<T: Ord>(values: &[T]) -> bool {
    for (i, a) in values.iter().enumerate() {
        for (j, b) in values.iter().enumerate() {
            if a.cmp(b) != i.cmp(&j) || (a == b) != (i == j) {
                return false;
            }
        }
    }
    true
}
