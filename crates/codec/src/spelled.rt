ghost use Rattle.std.specs.Prelude.{◌≡◌, ◌++◌, length, take, OnOk, ⊤};
ghost use Rattle.terms.specs.declared.key.TheConstants.{MAX_COMPONENTS};
ghost use Rattle.codec.specs.Spelling.{put_bytes, IsPut, item_bytes, HasPutNumber, IsItem, marked_bytes, IsMarked, inst_bytes, IsInstance, event_bytes, HasFewPuts, IsEvent};

use crate::encode::encode_event;
use crate::writing::{
    write_address, write_instance, write_item, write_marked, write_tag, write_value,
};
use std::alloc::AllocError;
use terms::{Addr, Event, Inst, Producer, Put, Tag};

/// An element of a list that can be spelled.
pub(crate) trait Spelled {
    ghost use Rattle.std.specs.Prelude.{ℕ, List};

    /// Its bytes.
    ghost spelling: { Self → List ℕ };

    /// What the caller must ensure.
    ghost May: { Self → Type 0 };

    /// Which elements have a spelling.
    ghost Is: { Self → Type 0 };

    /// Appends its bytes. After an error some of them may have been appended.
    fn write(&self, out: &mut Vec<u8>) -> Result<(), AllocError>
        requires { May self.now }
        ensures spelled { OnOk result (out.new.items ≡ out.old.items ++ spelling self.now) }
        ensures in_range { OnOk result (Is self.now) }
        ensures kept { take (length out.old.items) out.new.items ≡ out.old.items };
}

impl Spelled for Put {
    ghost spelling = { put_bytes };

    ghost May = { λ _. ⊤ };

    ghost Is = { IsPut MAX_COMPONENTS };

    fn write(&self, out: &mut Vec<u8>) -> Result<(), AllocError> {
        match self {
            Put::Item(address, value) => {
                out.push(1)?;
                write_address(out, address)?;
                write_value(out, *value)
            }
            Put::Tag(tag) => {
                out.push(2)?;
                write_tag(out, tag)
            }
        }
    }
}

impl Spelled for (Addr, i64, Producer) {
    ghost spelling = { item_bytes };

    ghost May = { HasPutNumber };

    ghost Is = { IsItem MAX_COMPONENTS };

    fn write(&self, out: &mut Vec<u8>) -> Result<(), AllocError> {
        write_item(out, self)
    }
}

impl Spelled for (Tag, bool) {
    ghost spelling = { marked_bytes };

    ghost May = { λ _. ⊤ };

    ghost Is = { IsMarked MAX_COMPONENTS };

    fn write(&self, out: &mut Vec<u8>) -> Result<(), AllocError> {
        write_marked(out, self)
    }
}

impl Spelled for Inst {
    ghost spelling = { inst_bytes };

    ghost May = { λ _. ⊤ };

    ghost Is = { IsInstance MAX_COMPONENTS };

    fn write(&self, out: &mut Vec<u8>) -> Result<(), AllocError> {
        write_instance(out, self)
    }
}

impl Spelled for Event {
    ghost spelling = { event_bytes };

    ghost May = { HasFewPuts };

    ghost Is = { IsEvent MAX_COMPONENTS };

    fn write(&self, out: &mut Vec<u8>) -> Result<(), AllocError> {
        encode_event(out, self)
    }
}
