//! Stream IDs: the route that a caller requests, and its role (draft-sharabayko-srt-01, appendix B).
//!
//! It only parses the text. The text is in an extension block of a handshake (`srt_hs::stream_id`, section 3.2.1.3),
//! and `srt_lobby` finds the route with the name. It doesn't allocate.
//!
//! There are two functions. [`read`] parses the text as bytes and returns an [`Ask`] (the name as a span of these
//! bytes, and the role) or an [`AskFault`]. [`key`] returns the key in a text, for a route that requires one. Two forms
//! are parsed: a list such as `#!::r=studio,m=publish`, and any other text, which is itself the name of a route whose
//! stream is requested.
//!
//! Files: `reading.rt` has the types, and distinguishes a list from a plain name. `keys.rt` splits a list at its commas
//! into parts and reads them in order. A part is a key, `=` and a value; the name and the role are kept, and a repeated
//! key is a fault. `specs/Spelling.antt` defines what a Stream ID requests, from all parts at once;
//! `specs/Reading.antt` reads them from left to right; `laws.rt` proves that the two agree.
#![tactic(auto)]

mod keys;
pub mod laws;
mod reading;

pub use reading::{Ask, AskFault, key, read};

#[cfg(test)]
mod tests;
