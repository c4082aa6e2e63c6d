//! AES (FIPS 197) with keys of 16, 24 and 32 bytes, and its counter mode as SRT uses it (draft-sharabayko-srt-01).
//!
//! The cipher works on eight blocks at once: bit p of their bytes is in plane p, one of eight vectors of two words
//! (`planes.rt`). The S-box is a circuit on planes (`circuit.rt`), ShiftRows is never done but turns which bits a round
//! reads (`rounds.rt`, `turn.rt`), and the key schedule uses the same circuit (`schedule.rt`). Planes become bytes again by a transposition of
//! words (`transposing.rt`). So nothing here looks anything up in a table or branches on a key or a payload, but for the inverse
//! cipher, which is for unwrapping keys (`inverse.rt`).
//!
//! Functions: `RoundKeys::new` once for a key; `apply` for a payload (`counter.rt`); `encrypt` and `decrypt` for one block
//! (`keys.rt`). Nothing allocates. `specs/Aes.antt` has FIPS 197's cipher, and `specs/Counter.antt` the counter mode.
#![tactic(auto)]

mod circuit;
mod counter;
mod inverse;
mod keys;
pub mod laws;
mod planes;
mod rounds;
mod schedule;
mod transposing;
mod turn;

pub use counter::add_bytes;
pub use keys::RoundKeys;

#[cfg(test)]
mod tests;
