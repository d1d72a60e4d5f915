//! Keys as they are written.
ghost use Rattle.std.specs.Prelude.{Some};
ghost use Rattle.std.specs.Str.Parse.{IsNumeral, signed_digits_value, without_leading_sign};
ghost use Rattle.script.specs.Lexemes.{IsSoundCursor, left};
ghost use Rattle.script.specs.Requests.{AnswersKey, HasReadMore, HasValue, key_of};

use crate::cursor::Cursor;
use terms::{Key, MAX_COMPONENTS};

/// What was read of the components of a key.
#[derive(Clone, Copy)]
pub(crate) enum WrittenKey {
    /// All of them fit in 64 bits, and this is the key.
    Whole(Key),
    /// All of them fit in 64 bits, but there are more than a key can have.
    TooLong,
    /// One of them does not fit in 64 bits.
    OutOfRange,
}

impl WrittenKey {
    // The same with one more component.
    fn with(self, component: Option<i64>) -> WrittenKey
        ensures { HasReadMore self component result }
    {
        match component {
            None => WrittenKey::OutOfRange,
            Some(value) => match self {
                WrittenKey::Whole(key) => longer(key, value),
                WrittenKey::TooLong => WrittenKey::TooLong,
                WrittenKey::OutOfRange => WrittenKey::OutOfRange,
            },
        }
    }
}

// The key with one more component.
fn longer(key: Key, component: i64) -> WrittenKey
    ensures { HasReadMore (WrittenKey.Whole key) (Some component) result }
{
    let before = key.components();
    let count = before.len();
    if count == MAX_COMPONENTS {
        return WrittenKey::TooLong;
    }
    let mut components = [0; MAX_COMPONENTS];
    components[..count].copy_from_slice(before);
    components[count] = component;
    WrittenKey::Whole(Key::new(&components[..count + 1]))
}

/// The number that is written here, or `None` if it does not fit in 64 bits.
pub(crate) fn number(text: &str) -> Option<i64>
    requires { IsNumeral 10 (without_leading_sign text.now) }
    ensures { HasValue result (signed_digits_value 10 text.now) }
{
    text.parse::<i64>().ok()
}

/// The key after a name: a colon and components, if there are any, up to the closing bracket.
pub(crate) fn written_key(cursor: &mut Cursor<'_, '_>, close: u8) -> Option<WrittenKey>
    requires { IsSoundCursor cursor.old }
    ensures key { AnswersKey result (key_of 58 close (left cursor.old)) (left cursor.new) }
    ensures sound { IsSoundCursor cursor.new }
{
    let mut written = WrittenKey::Whole(Key::new(&[]));
    let mut mark = b':';
    loop {
        if cursor.takes(close) {
            return Some(written);
        }
        if !cursor.takes(mark) {
            return None;
        }
        match cursor.number() {
            Some(component) => written = written.with(component),
            None => return None,
        }
        mark = b',';
    }
}
