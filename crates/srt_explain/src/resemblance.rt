//! Keys that resemble a text.

ghost use Rattle.std.specs.Prelude.{◌≡◌, ◌<◌, ◌≤◌, length};
ghost use Rattle.srt_explain.specs.Resemblance.{agreeing_front, agreeing_end, are_exchanged, whole_difference, front_difference, difference};
ghost use Rattle.srt_explain.specs.Resemblance.{same_at, same_before, unlikeness, unlikeness_by, nearest, nearer, nearest_of, resembled};

use srt_config::Key;

/// Whether two texts have the same byte at this place, whatever the case of letters.
fn same_at(one: &[u8], other: &[u8], at: usize) -> bool
    requires one { at < length one.now }
    requires other { at < length other.now }
    ensures { result ≡ same_at one.now other.now at }
{
    one[at].eq_ignore_ascii_case(&other[at])
}

/// The same of a place counted from their ends.
fn same_before(one: &[u8], other: &[u8], at: usize) -> bool
    requires one { at < length one.now }
    requires other { at < length other.now }
    ensures { result ≡ same_before one.now other.now at }
{
    one[one.len() - 1 - at].eq_ignore_ascii_case(&other[other.len() - 1 - at])
}

/// Returns the number of first bytes in which two texts agree, whatever the case of letters.
#[tactic(auto, unfolding(crate::specs::Resemblance::agreeing_front))]
fn agreeing_front(one: &[u8], other: &[u8]) -> usize
    ensures value { result ≡ agreeing_front one.now other.now }
    ensures one { result ≤ length one.now }
    ensures other { result ≤ length other.now }
{
    let most = one.len().min(other.len());
    for at in 0..most {
        if !same_at(one, other, at) {
            return at;
        }
    }
    most
}

/// Returns the number of last bytes in which two texts agree, whatever the case of letters.
#[tactic(auto, unfolding(crate::specs::Resemblance::agreeing_end))]
fn agreeing_end(one: &[u8], other: &[u8]) -> usize
    ensures value { result ≡ agreeing_end one.now other.now }
    ensures one { result ≤ length one.now }
    ensures other { result ≤ length other.now }
{
    let most = one.len().min(other.len());
    for at in 0..most {
        if !same_before(one, other, at) {
            return at;
        }
    }
    most
}

/// Whether two texts are two bytes each, the one the other's in reverse.
fn are_exchanged(one: &[u8], other: &[u8]) -> bool
    ensures { result ≡ are_exchanged one.now other.now }
{
    one.len() == 2 && other.len() == 2 && one[0] == other[1] && one[1] == other[0]
}

/// Returns how many bytes two texts differ in, without looking for what they have in common; 1 if they are two bytes that are exchanged.
fn whole_difference(one: &[u8], other: &[u8]) -> usize
    ensures { result ≡ whole_difference one.now other.now }
{
    if are_exchanged(one, other) {
        return 1;
    }
    one.len().max(other.len())
}

/// The same before their common end.
fn front_difference(one: &[u8], other: &[u8]) -> usize
    ensures { result ≡ front_difference one.now other.now }
{
    let end = agreeing_end(one, other);
    whole_difference(&one[..one.len() - end], &other[..other.len() - end])
}

/// The same between their common front and their common end.
fn difference(one: &[u8], other: &[u8]) -> usize
    ensures { result ≡ difference one.now other.now }
{
    let front = agreeing_front(one, other);
    front_difference(&one[front..], &other[front..])
}

/// Returns how unlike a key a text is: None if it doesn't resemble it at all. It does if it differs in a third of the key's bytes
/// at most and in two at most, or if it is the key's beginning, with three bytes or more, or if four of their first bytes
/// agree.
#[tactic(auto, unfolding(crate::specs::Resemblance::unlikeness))]
fn unlikeness(key: Key, text: &[u8]) -> Option<usize>
    ensures { result ≡ unlikeness key text.now }
{
    let name = key.name().as_bytes();
    let differs = difference(name, text);
    let front = agreeing_front(name, text);
    if differs <= 2 && differs <= name.len() / 3 {
        return Some(differs);
    }
    if front >= 3 && front == text.len() {
        return Some(3);
    }
    if front >= 4 {
        return Some(name.len().saturating_add(differs));
    }
    None
}

/// The key that resembles a text most so far, and how unlike it is.
#[derive(Clone, Copy)]
struct Nearest {
    key: Option<Key>,
    unlike: usize,
}

/// Returns the nearer one of the key that was found and another one.
fn nearer(found: Nearest, key: Key, text: &[u8]) -> Nearest
    ensures { result ≡ nearer text.now found key }
{
    match unlikeness(key, text) {
        Some(unlike) if unlike < found.unlike => Nearest {
            key: Some(key),
            unlike,
        },
        _ => found,
    }
}

/// Returns the one of these keys that a text resembles most, the first one of several.
#[tactic(auto, unfolding(crate::specs::Resemblance::resembled))]
pub(crate) fn resembled(keys: &[Key], text: &[u8]) -> Option<Key>
    ensures { result ≡ resembled keys.now text.now }
{
    let mut found = Nearest {
        key: None,
        unlike: usize::MAX,
    };
    let mut rest = keys;
    while !rest.is_empty() {
        found = nearer(found, rest[0], text);
        rest = &rest[1..];
    }
    found.key
}
