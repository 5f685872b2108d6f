//! Kinds of bytes.
ghost use Rattle.std.specs.Prelude.{◌≡◌};
ghost use Rattle.lexer.specs.Classes.{is_blank, in_word, in_name};

/// Whether the byte is a space, a tab or a carriage return.
pub fn is_blank(byte: u8) -> bool
    ensures { result ≡ is_blank byte }
{
    byte == b' ' || byte == b'\t' || byte == b'\r'
}

/// Whether the byte is of a word: neither blank nor `#`.
pub fn in_word(byte: u8) -> bool
    ensures { result ≡ in_word byte }
{
    !is_blank(byte) && byte != b'#'
}

/// Whether the byte is of a name: a letter, a digit or `-`.
pub fn in_name(byte: u8) -> bool
    ensures { result ≡ in_name byte }
{
    byte.is_ascii_alphanumeric() || byte == b'-'
}
