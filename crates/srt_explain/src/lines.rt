//! The lines of a configuration's keys, in a text that is TOML.

ghost use Rattle.std.specs.Prelude.{◌<◌, length};

use srt_config::Place;

/// What a place in a text is inside of.
#[derive(Clone, Copy)]
enum Inside {
    /// No quotes.
    Nothing,
    /// A comment.
    Comment,
    /// Quotes of one line.
    Quotes,
    /// Single quotes of one line.
    SingleQuotes,
    /// Three quotes, of several lines.
    ThreeQuotes,
    /// Three single quotes, of several lines.
    ThreeSingleQuotes,
}

/// What a place in a text is inside of, and how many brackets and braces are open there.
#[derive(Clone, Copy)]
struct Nesting {
    inside: Inside,
    open: usize,
}

/// What the bytes at the front of a text lead to, and how many they are.
#[derive(Clone, Copy)]
struct Step {
    to: Inside,
    taken: usize,
}

/// Goes on outside of quotes.
fn step_outside(rest: &[u8]) -> Step {
    let (to, taken) = if rest.starts_with(b"\"\"\"") {
        (Inside::ThreeQuotes, 3)
    } else if rest.starts_with(b"'''") {
        (Inside::ThreeSingleQuotes, 3)
    } else {
        match rest.first() {
            Some(b'"') => (Inside::Quotes, 1),
            Some(b'\'') => (Inside::SingleQuotes, 1),
            Some(b'#') => (Inside::Comment, 1),
            _ => (Inside::Nothing, 1),
        }
    };
    Step { to, taken }
}

/// Goes on within quotes that end with these bytes.
fn step_within(inside: Inside, end: &[u8], escapes: bool, rest: &[u8]) -> Step {
    if escapes && rest.starts_with(b"\\") {
        return Step {
            to: inside,
            taken: 2,
        };
    }
    if rest.starts_with(end) {
        return Step {
            to: Inside::Nothing,
            taken: end.len(),
        };
    }
    Step {
        to: inside,
        taken: 1,
    }
}

/// Goes on by one step.
fn next_step(inside: Inside, rest: &[u8]) -> Step {
    match inside {
        Inside::Nothing => step_outside(rest),
        Inside::Comment => Step {
            to: Inside::Comment,
            taken: rest.len(),
        },
        Inside::Quotes => step_within(inside, b"\"", true, rest),
        Inside::SingleQuotes => step_within(inside, b"'", false, rest),
        Inside::ThreeQuotes => step_within(inside, b"\"\"\"", true, rest),
        Inside::ThreeSingleQuotes => step_within(inside, b"'''", false, rest),
    }
}

/// Returns how many brackets and braces are open after the next byte outside of quotes.
fn open_after(open: usize, rest: &[u8]) -> usize {
    match rest.first() {
        Some(b'[' | b'{') => open.saturating_add(1),
        Some(b']' | b'}') => open.saturating_sub(1),
        _ => open,
    }
}

/// Returns the text behind this many bytes, at least one.
fn behind(text: &[u8], taken: usize) -> &[u8]
    ensures { 0 < length text.now → length result.now < length text.now }
{
    if 0 < taken && taken < text.len() {
        return &text[taken..];
    }
    &[]
}

/// Returns what the next line is inside of, after this one. Quotes of one line and comments end with it.
fn after_line(at: Nesting, line: &[u8]) -> Nesting {
    let mut inside = at.inside;
    let mut open = at.open;
    let mut rest = line;
    while !rest.is_empty() {
        if let Inside::Nothing = inside {
            open = open_after(open, rest);
        }
        let Step { to, taken } = next_step(inside, rest);
        inside = to;
        rest = behind(rest, taken);
    }
    let inside = match inside {
        Inside::ThreeQuotes | Inside::ThreeSingleQuotes => inside,
        _ => Inside::Nothing,
    };
    Nesting { inside, open }
}

/// The part of a configuration that a line is in.
#[derive(Clone, Copy, PartialEq, Eq)]
enum Within {
    /// This part.
    Part(Place),
    /// A table that isn't one of a configuration.
    Other,
}

/// Returns the text between the brackets of a line that begins a table.
fn title_of(line: &[u8]) -> &[u8] {
    let begin = line.iter().position(|byte| *byte != b'[');
    let inner = match begin {
        Some(begin) => &line[begin.min(line.len())..],
        None => b"",
    };
    match inner.iter().position(|byte| *byte == b']') {
        Some(end) => inner[..end.min(inner.len())].trim_ascii(),
        None => inner.trim_ascii(),
    }
}

/// Returns the part that begins with this line, after this number of routes.
fn begun_by(line: &[u8], routes: usize) -> Within {
    let title = title_of(line);
    if line.starts_with(b"[[") {
        if title == b"route".as_slice() {
            return Within::Part(Place::Route(routes.saturating_add(1)));
        }
        return Within::Other;
    }
    if title == b"defaults".as_slice() {
        return Within::Part(Place::Defaults);
    }
    Within::Other
}

/// Returns the key of a line: the text before `=`, without quotes.
fn key_of(line: &[u8]) -> &[u8] {
    let key = match line.iter().position(|byte| *byte == b'=') {
        Some(end) => line[..end.min(line.len())].trim_ascii(),
        None => line.trim_ascii(),
    };
    let quoted = key.len() > 1 && (key[0] == b'"' || key[0] == b'\'');
    if quoted { &key[1..key.len() - 1] } else { key }
}

/// Where a key of a part is looked for.
#[derive(Clone, Copy)]
pub(crate) struct Sought<'a> {
    /// The part.
    pub(crate) place: Place,
    /// The key.
    pub(crate) key: &'a [u8],
}

/// What was found up to some line.
#[derive(Clone, Copy)]
struct Found {
    /// The part that the line is in.
    within: Within,
    /// The number of routes that have begun.
    routes: usize,
    /// The line with which the sought part begins.
    begins: Option<usize>,
}

/// Goes on by a line that begins a table.
fn after_title(found: Found, line: &[u8], number: usize, place: Place) -> Found {
    let within = begun_by(line, found.routes);
    let routes = match within {
        Within::Part(Place::Route(routes)) => routes,
        _ => found.routes,
    };
    let begins = if within == Within::Part(place) {
        Some(number)
    } else {
        found.begins
    };
    Found {
        within,
        routes,
        begins,
    }
}

/// Returns the number of the line of a key of a part, or of the table that it is, counted from 1; that of the line with which the part
/// begins, if it doesn't have the key; None if neither is found, as in a table within braces. The text is TOML. Linear in its length.
pub(crate) fn line_of(text: &[u8], sought: Sought<'_>) -> Option<usize> {
    let mut found = Found {
        within: Within::Part(Place::Above),
        routes: 0,
        begins: None,
    };
    let mut at = Nesting {
        inside: Inside::Nothing,
        open: 0,
    };
    let mut number = 1usize;
    let mut rest = text;
    while !rest.is_empty() {
        let end = rest
            .iter()
            .position(|byte| *byte == b'\n')
            .unwrap_or(rest.len())
            .min(rest.len());
        let line = rest[..end].trim_ascii();
        if let Nesting {
            inside: Inside::Nothing,
            open: 0,
        } = at
        {
            if line.starts_with(b"[") {
                if sought.place == Place::Above && title_of(line) == sought.key {
                    return Some(number);
                }
                found = after_title(found, line, number, sought.place);
            } else if found.within == Within::Part(sought.place) && key_of(line) == sought.key {
                return Some(number);
            }
        }
        at = after_line(at, line);
        rest = behind(rest, end.saturating_add(1));
        number = number.saturating_add(1);
    }
    found.begins
}
