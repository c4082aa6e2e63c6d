//! Why a content of the configuration's file isn't taken, in words.

ghost use Rattle.std.specs.Prelude.{◌≡◌, IfSome};
ghost use Rattle.std.specs.Fmt.Cut.{IsTextOrCut};
ghost use Rattle.std.specs.Fmt.InlineText.{inline_text};

use crate::config_file::MAX_REASON;
use std::fmt::{Display, InlineText};
use std::snapshot::Snapshot;

/// The text of a value, and, for contracts alone, the value.
pub(crate) struct Reason<D> {
    pub text: InlineText<MAX_REASON>,
    pub of: Snapshot<D>,
}

impl<D> Drop for Reason<D> {
    fn drop(self) {
        let Self { text: _, of: _ } = self;
    }
}

/// Returns the text of this value, cut off at the greatest length of a reason.
pub(crate) fn reason_of<D: Display + Drop>(value: D) -> Reason<D>
    ensures of { result.of.value ≡ value }
    ensures text { IfSome (D.output value) (λ text. IsTextOrCut 896 text (inline_text result.text)) }
{
    let of = Snapshot::of(&value);
    Reason {
        text: InlineText::of(value),
        of,
    }
}
