//! The rules on lines.
ghost use Rattle.std.specs.Prelude.{◌≡◌, ◌<◌, ◌≤◌, ◌∷◌, [], All, false, not, IfNone, IfSome, MatchOption, length};
ghost use Rattle.std.specs.List.{position};
ghost use Rattle.vp_stream.specs.Lines.{behind_blanks, fields_of, is_blank, is_skipped, without_return};

/// What is read of a line: the line, which has no LF, without one CR at its end.
pub fn content(line: &[u8]) -> &[u8]
    ensures { result.now ≡ without_return line.now }
{
    match line {
        [front @ .., b'\r'] => front,
        _ => line,
    }
}

/// Whether a byte separates fields.
fn is_blank(byte: u8) -> bool
    ensures { result ≡ is_blank byte }
{
    byte == b' ' || byte == b'\t'
}

/// Where the first byte stands that is no blank.
fn other_place(bytes: &[u8]) -> Option<usize>
    ensures { result ≡ position (λ b. not (is_blank b)) bytes.now }
{
    bytes.iter().position(|byte| !is_blank(*byte))
}

/// The bytes from the first one on that is no blank.
fn skip_blanks(bytes: &[u8]) -> &[u8]
    ensures { result.now ≡ behind_blanks bytes.now }
{
    match other_place(bytes) {
        Some(start) => &bytes[start..],
        None => &[],
    }
}

/// Whether a line, without its LF and its CR, gives no reply: it has spaces and tabs only, or `#` as
/// its first other byte.
pub fn is_skipped(line: &[u8]) -> bool
    ensures { result ≡ is_skipped line.now }
{
    match skip_blanks(line) {
        [] => true,
        [first, ..] => *first == b'#',
    }
}

/// Where the first blank stands.
fn blank_place(bytes: &[u8]) -> Option<usize>
    ensures place { result ≡ position is_blank bytes.now }
    ensures none { IfNone result (All (λ b. is_blank b ≡ false) bytes.now) }
    ensures within { IfSome result (λ at. at < length bytes.now) }
{
    bytes.iter().position(|byte| is_blank(*byte))
}

/// The first field of a line, and what follows it.
pub(crate) fn next_field(line: &[u8]) -> Option<(&[u8], &[u8])>
    ensures fields { MatchOption result (fields_of line.now ≡ []) (λ found. fields_of line.now ≡ found.0.now ∷ fields_of found.1.now) }
    ensures shorter { IfSome result (λ found. length found.1.now < length line.now) }
{
    let rest = skip_blanks(line);
    if rest.is_empty() {
        return None;
    }
    match blank_place(rest) {
        Some(end) => Some((&rest[..end], &rest[end + 1..])),
        None => Some((rest, &[])),
    }
}
