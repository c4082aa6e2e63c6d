//! The keys of encrypted sessions (draft-sharabayko-srt-01; what it leaves open is our choice).
//!
//! [`DerivationLimiter`] (`limiter.rt`) limits how often a route derives a key from a passphrase: each derivation takes a
//! [`DerivationPermit`]. [`WrappingKey`]
//! (`wrapping_key.rt`) is the derived one, which wraps the keys of a session. [`PublisherKeys`] (`publisher.rt`) are those that
//! a publisher brings, in two slots (`slot.rt`). [`SubscriberKeys`] (`subscriber.rt`) are those that the gateway makes for a
//! subscriber (`source.rt`), of what distinguishes the sessions of its route ([`KeyPool`], `pool.rt`), and when each was
//! announced (`announcement.rt`). Nothing allocates, and nothing prints a byte of a key.
//!
//! `specs/Wrapping.antt` defines which keys a message brings, `specs/Publisher.antt` what a message changes,
//! `specs/Source.antt` the gateway's own keys, and `specs/Subscriber.antt` when they are announced, confirmed and used.
#![tactic(auto)]

mod announcement;
pub mod laws;
mod limiter;
mod pool;
mod publisher;
mod slot;
mod source;
mod subscriber;
mod wrapping_key;

pub use limiter::{DerivationLimiter, DerivationPermit};
pub use pool::KeyPool;
pub use publisher::{KeyAnswer, PublisherKeys};
pub use subscriber::SubscriberKeys;
pub use wrapping_key::WrappingKey;

#[cfg(test)]
mod tests;
