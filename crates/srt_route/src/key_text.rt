//! The message in the KMREQ block of a conclusion (draft-sharabayko-srt-01, section 3.2.2).

ghost use Rattle.std.specs.Prelude.{◌≤◌, length};

use arrayvec::ArrayVec;
use srt_hs::KeyMessageRef;

/// A copy of the contents of a KMREQ block.
#[derive(Drop)]
pub(crate) struct KeyText {
    /// The bytes: 16 to 104.
    pub bytes: ArrayVec<u8, 104>,
    pub ghost some: { 16 ≤ length bytes.items },
}

/// The only KMREQ block of a conclusion.
#[derive(Clone, Copy)]
pub(crate) struct BroughtRef<'a> {
    /// Its contents.
    pub contents: &'a [u8],
    /// The message in it.
    pub message: KeyMessageRef<'a>,
    pub ghost some: { 16 ≤ length contents.now },
    pub ghost most: { length contents.now ≤ 104 },
}
