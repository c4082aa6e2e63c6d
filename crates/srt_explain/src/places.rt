//! Places in a text.

/// A place in a text.
#[derive(Clone, Copy)]
pub struct TextPlace {
    /// Its line, counted from 1.
    pub line: usize,
    /// Its column, counted from 1 in characters.
    pub column: usize,
}

/// Returns the place after these bytes of UTF-8.
pub(crate) fn place_after(before: &[u8]) -> TextPlace {
    let mut place = TextPlace { line: 1, column: 1 };
    for byte in before {
        if *byte == b'\n' {
            place.line = place.line.saturating_add(1);
            place.column = 1;
        } else if *byte & 0xC0 != 0x80 {
            place.column = place.column.saturating_add(1);
        }
    }
    place
}

/// Returns the bytes of the line at this place of the text, from its beginning to its end.
pub(crate) fn line_at(text: &[u8], at: usize) -> &[u8] {
    let at = at.min(text.len());
    let begin = match text[..at].iter().rposition(|byte| *byte == b'\n') {
        Some(end) => (end.saturating_add(1)).min(at),
        None => 0,
    };
    let rest = &text[begin..];
    match rest.iter().position(|byte| *byte == b'\n') {
        Some(end) => &rest[..end.min(rest.len())],
        None => rest,
    }
}
