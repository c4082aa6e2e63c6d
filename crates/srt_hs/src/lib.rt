//! Handshakes: those of callers are decoded from borrowed bytes, and the listener's answers are encoded
//! (draft-sharabayko-srt-01, sections 3.2.1 and 4.3).
//!
//! It makes no decisions: `srt_lobby` and `srt_route` decide which callers are answered, admitted or refused. The
//! packet's header is in `srt_packet`, the meaning of a Stream ID in `srt_streamid`, the cookie in `srt_cookie`. It
//! doesn't allocate.
//!
//! Decoding: [`read`] in `reading.rt` reads the bytes after the packet's header and returns an [`HsRef`] with its
//! [`BlocksRef`] (types in `handshake.rt`), or the first [`HsFault`]. Then [`stream_id`] and [`congestion`], in
//! `contents.rt`, copy the contents of two blocks.
//!
//! Encoding: fill an [`HsAnswer`] with an [`AnswerKind`] and [`write`] it, or [`write_with_keys`] if the session has keys,
//! all in `writing.rt`; the flags of an HSRSP are in `response_flags.rt`. [`RefusalCode`], in `refusal_codes.rt`, lists each reason
//! for a refusal with its number, its name and its causes; [`refusal_name`] names any number of the draft's table.
//!
//! Keys: [`key_request`] (`key_requests.rt`) finds the KMREQ block in the same bytes. [`read_key_message`] and
//! [`write_key_message`] (`key_reading.rt`) read its contents as a [`KeyMessageRef`] (`key_message.rt`), or return the first
//! [`KeyFault`], and write them. `specs/KeyMessage.antt` and `specs/KeyRequest.antt` define both.
//!
//! `specs/Grammar.antt` defines which bytes encode which handshake, and the faults; `specs/Text.antt` defines what is
//! written.
#![tactic(auto)]

mod contents;
mod handshake;
mod key_message;
mod key_reading;
mod key_requests;
pub mod laws;
mod reading;
mod refusal_codes;
mod response_flags;
mod writing;

pub use contents::{congestion, stream_id};
pub use handshake::{
    BlocksRef, CongestionRef, CongestionText, HsFault, HsKind, HsRef, HsReq, StreamIdRef,
};
pub use key_message::{KeyFault, KeyMessageRef, SentKeys};
pub use key_reading::{read_key_message, write_key_message};
pub use key_requests::{KeyRequest, key_request};
pub use reading::read;
pub use refusal_codes::{RefusalCode, refusal_name};
pub use writing::{AnswerKind, HsAnswer, write, write_with_keys};

#[cfg(test)]
mod tests;
