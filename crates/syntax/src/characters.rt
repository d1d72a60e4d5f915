//! The kinds of characters, and how many of one kind a text begins with.
ghost use Rattle.std.specs.Prelude.{◌≡◌, ◌||◌};
ghost use Rattle.std.specs.List.{prefix_len};
ghost use Rattle.syntax.specs.Tokens.{is_blank, is_digit, is_letter};

fn is_blank(byte: u8) -> bool
    ensures { result ≡ is_blank byte }
{
    byte == b' ' || byte == b'\t' || byte == b'\r' || byte == b'\n'
}

/// Whether it is a decimal digit.
pub fn is_digit(byte: u8) -> bool
    ensures { result ≡ is_digit byte }
{
    byte >= b'0' && byte <= b'9'
}

/// Whether it is a letter or `_`.
pub fn is_letter(byte: u8) -> bool
    ensures { result ≡ is_letter byte }
{
    byte >= b'A' && byte <= b'Z' || byte >= b'a' && byte <= b'z' || byte == b'_'
}

/// How many blanks these bytes begin with.
pub(crate) fn leading_blanks(bytes: &[u8]) -> usize
    ensures { result ≡ prefix_len is_blank bytes.now }
{
    bytes.iter().take_while(|byte| is_blank(**byte)).count()
}

/// How many digits these bytes begin with.
pub fn leading_digits(bytes: &[u8]) -> usize
    ensures { result ≡ prefix_len is_digit bytes.now }
{
    bytes.iter().take_while(|byte| is_digit(**byte)).count()
}

/// How many letters and digits these bytes begin with.
pub fn leading_word(bytes: &[u8]) -> usize
    ensures { result ≡ prefix_len (λ byte. is_letter byte || is_digit byte) bytes.now }
{
    bytes
        .iter()
        .take_while(|byte| is_letter(**byte) || is_digit(**byte))
        .count()
}
