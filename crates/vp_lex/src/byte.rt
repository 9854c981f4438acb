//! Kinds of bytes, and how far bytes of a kind go on.
ghost use Rattle.std.specs.Prelude.{◌≡◌, ◌≤◌, ◌<◌, length, slice_index, not, nat_eq, true, false};
ghost use Rattle.vp_lex.specs.Bytes.{is_letter, is_digit, is_word_byte, is_space, is_symbol, is_pair, IsRun, IsCommentEnd};

/// A letter, `A` to `Z` or `a` to `z`.
pub fn is_letter(byte: u8) -> bool
    ensures { result ≡ is_letter byte }
{
    matches!(byte, b'A'..=b'Z' | b'a'..=b'z')
}

/// A decimal digit.
pub fn is_digit(byte: u8) -> bool
    ensures { result ≡ is_digit byte }
{
    matches!(byte, b'0'..=b'9')
}

/// What stands in a name or a reserved word behind its first letter.
pub fn is_word_byte(byte: u8) -> bool
    ensures { result ≡ is_word_byte byte }
{
    is_letter(byte) || is_digit(byte) || byte == b'_'
}

/// A space, a tab, CR or LF.
pub fn is_space(byte: u8) -> bool
    ensures { result ≡ is_space byte }
{
    matches!(byte, b' ' | b'\t' | b'\r' | b'\n')
}

/// A symbol of one byte.
pub fn is_symbol(byte: u8) -> bool
    ensures { result ≡ is_symbol byte }
{
    matches!(
        byte,
        b';' | b','
            | b'('
            | b')'
            | b'['
            | b']'
            | b'{'
            | b'}'
            | b'+'
            | b'-'
            | b'*'
            | b'^'
            | b'\''
            | b'<'
            | b'>'
            | b'='
            | b'?'
            | b'!'
            | b'&'
            | b'|'
    )
}

/// A symbol of two bytes.
pub fn is_pair(first: u8, second: u8) -> bool
    ensures { result ≡ is_pair first second }
{
    match first {
        b'+' => second == b'+',
        b'<' | b'>' | b'!' | b':' => second == b'=',
        _ => false,
    }
}

/// How many bytes in front can stand in a word.
pub fn word_len(bytes: &[u8]) -> usize
    ensures { IsRun is_word_byte bytes.now 0 result }
{
    bytes
        .iter()
        .position(|byte| !is_word_byte(*byte))
        .unwrap_or(bytes.len())
}

/// How many digits are in front.
fn digits_len(bytes: &[u8]) -> usize
    ensures { IsRun is_digit bytes.now 0 result }
{
    bytes
        .iter()
        .position(|byte| !is_digit(*byte))
        .unwrap_or(bytes.len())
}

/// Where the digits that begin at a place end.
pub fn digits_end(text: &[u8], from: usize) -> usize
    requires { from ≤ length text.now }
    ensures { IsRun is_digit text.now from result }
{
    from + digits_len(&text[from..])
}

/// How many bytes stand before the first LF, or in all where there is none.
fn line_len(bytes: &[u8]) -> usize
    ensures { IsRun (λ b. not (nat_eq b 10)) bytes.now 0 result }
{
    bytes
        .iter()
        .position(|byte| *byte == b'\n')
        .unwrap_or(bytes.len())
}

/// Where the comment that begins at a place ends.
pub fn comment_end(text: &[u8], from: usize) -> usize
    requires { from < length text.now }
    ensures { IsCommentEnd text.now from result }
{
    from + 1 + line_len(&text[from + 1..])
}
