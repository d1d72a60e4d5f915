//! The signs and the spaces of a script.
ghost use Rattle.std.specs.Prelude.{◌≡◌};
ghost use Rattle.std.specs.List.{prefix_len};
ghost use Rattle.script.specs.Tokens.{is_sign, is_space};

/// Whether it is one of `[ ] < > : , =`.
pub(crate) fn is_sign(byte: u8) -> bool
    ensures { result ≡ is_sign byte }
{
    byte == b'['
        || byte == b']'
        || byte == b'<'
        || byte == b'>'
        || byte == b':'
        || byte == b','
        || byte == b'='
}

/// How many spaces these bytes begin with.
pub(crate) fn leading_spaces(bytes: &[u8]) -> usize
    ensures { result ≡ prefix_len is_space bytes.now }
{
    bytes.iter().take_while(|byte| **byte == b' ').count()
}
