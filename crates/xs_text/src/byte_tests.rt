//! Classes of bytes: which a text may hold, which are blank, and which a name begins with or has.
ghost use Rattle.std.specs.Prelude.{◌≡◌};
ghost use Rattle.xs_text.specs.Bytes.{is_allowed, all_allowed, is_blank, is_name_start, is_name_byte};

/// Whether a text may hold the byte: tab, or one from space to `~`.
pub fn is_allowed(b: u8) -> bool
    ensures { result ≡ is_allowed b }
{
    b == b'\t' || (b >= b' ' && b <= b'~')
}

/// Whether a text may hold all of the bytes, as those of one line.
pub fn all_allowed(bytes: &[u8]) -> bool
    ensures { result ≡ all_allowed bytes.now }
{
    bytes.iter().all(|b| is_allowed(*b))
}

pub fn is_blank(b: u8) -> bool
    ensures { result ≡ is_blank b }
{
    b == b'\t' || b == b' '
}

// A letter, `.` or `_`.
pub fn is_name_start(b: u8) -> bool
    ensures { result ≡ is_name_start b }
{
    b.is_ascii_alphabetic() || b == b'.' || b == b'_'
}

// A letter, a digit, `.`, `_` or `$`.
pub fn is_name_byte(b: u8) -> bool
    ensures { result ≡ is_name_byte b }
{
    b.is_ascii_alphanumeric() || b == b'.' || b == b'_' || b == b'$'
}
