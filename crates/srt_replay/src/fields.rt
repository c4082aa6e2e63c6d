//! The fields of a tape's line.

ghost use Rattle.std.specs.Prelude.{◌≡◌, ◌∷◌, ◌≤◌, length, IfSome};
ghost use Rattle.srt_replay.specs.Tape.{fields_of};
ghost use Rattle.srt_replay.specs.inside.Pieces.{fields_behind};

use srt_config::parted;

/// A text split at its first space.
#[derive(Clone, Copy)]
pub(crate) struct Split<'a> {
    /// The bytes before the space.
    pub(crate) field: &'a [u8],
    /// The bytes after the space, if there is one.
    pub(crate) rest: Option<&'a [u8]>,
}

/// Splits a text at its first space. Linear in the length of the first field.
pub(crate) fn split_field(text: &[u8]) -> Split<'_>
    ensures fields { fields_of text.now ≡ result.field.now ∷ fields_behind result.rest }
    ensures field_within { length result.field.now ≤ length text.now }
    ensures rest_within { IfSome result.rest (λ t. length t.now ≤ length text.now) }
{
    match parted(b' ', text) {
        Some(parts) => Split {
            field: parts.before,
            rest: Some(parts.behind),
        },
        None => Split {
            field: text,
            rest: None,
        },
    }
}
