//! What distinguishes the sessions of a route.

ghost use Rattle.std.specs.Prelude.{◌≡◌, ◌<◌, ◌^◌};

use sha2::{Digest, Sha256};
use srt_types::Peer;

/// What distinguishes the subscribers' sessions of a route from one another, and from those of other runs: how many were opened,
/// and a hash of the cookies and peers of all of them (our choice). Its size is fixed.
#[derive(Drop)]
pub struct KeyPool {
    pub(crate) count: u64,
    pub(crate) hash: [u8; 32],
}

impl KeyPool {
    ghost use Rattle.srt_session_keys.specs.Source.{pool_of, first_pool, pool_with, Opening};

    /// Returns the pool of a route that opens.
    pub fn new() -> KeyPool
        ensures { pool_of result ≡ first_pool }
    {
        KeyPool {
            count: 0,
            hash: [0; 32],
        }
    }

    /// Counts a subscriber's session that opens, with the cookie of its conclusion. Hashes one block of 64 bytes.
    pub(crate) fn add(&mut self, cookie: u32, peer: Peer)
        requires { (pool_of self.old).count < 2 ^ 62 }
        ensures { pool_of self.new ≡ pool_with (record { cookie = cookie; peer = peer }) (pool_of self.old) }
    {
        let mut hasher = Sha256::new();
        hasher.update(&self.hash);
        hasher.update(&cookie.to_be_bytes());
        hasher.update(&peer.ip);
        hasher.update(&peer.port.to_be_bytes());
        self.hash = hasher.finalize();
        self.count += 1;
    }
}
