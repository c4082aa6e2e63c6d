//! The SYN cookie of the handshake (draft-sharabayko-srt-01, section 4.3.1.1). The gateway sends it in the answer to an
//! induction, and the caller must return it in its conclusion. A caller that does so can receive datagrams at its
//! source address, which excludes callers with a forged address.
//!
//! No state is stored for a caller. A cookie is computed from a [`Secret`], the caller's address and port, and the
//! minute, and it is checked by computing it again. It neither authenticates nor encrypts. It doesn't allocate and
//! reads no clock.
//!
//! Functions: `Secret::new` once, and `of_run` if each run uses separate cookies (`secret.rt`); [`cookie`] with
//! [`minute_of`] the time, for an induction; [`right`] for a conclusion (all in `cookies.rt`). `srt_lobby` calls them.
//! The formula is in `specs/Cookie.antt`.
#![tactic(auto)]

mod cookies;
mod secret;

pub use cookies::{cookie, minute_of, right};
pub use secret::Secret;

#[cfg(test)]
mod tests;
