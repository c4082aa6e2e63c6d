//! The secret that makes cookies hard to guess.

ghost use Rattle.std.specs.Prelude.{◌≡◌};
ghost use Rattle.std.specs.Str.{bytes_eq};
ghost use Rattle.srt_cookie.specs.Cookie.{secret_bytes, secret_of_run};

use sha2::{Digest, Sha256};

/// A secret of 32 bytes, known only to the gateway. It can't be read or printed.
#[derive(Clone, Copy)]
pub struct Secret {
    pub(crate) bytes: [u8; 32],
}

impl Secret {
    /// Returns the secret with these bytes. Any bytes are allowed; they should be random.
    pub fn new(bytes: [u8; 32]) -> Secret
        ensures { secret_bytes result ≡ bytes }
    {
        Secret { bytes }
    }

    /// Whether both have the same bytes. Not constant-time, so the duration must not be observable by peers.
    pub fn is_same(&self, other: &Secret) -> bool
        ensures { result ≡ bytes_eq (secret_bytes self.now) (secret_bytes other.now) }
    {
        self.bytes[..] == other.bytes[..]
    }

    /// Returns the secret of a run that starts at this time, in microseconds since 1970: SHA-256 of this secret and of
    /// the start in network byte order. So cookies of one run are invalid in the next.
    pub fn of_run(&self, start: u64) -> Secret
        ensures { secret_bytes result ≡ secret_of_run (secret_bytes self.now) start }
    {
        let mut hasher = Sha256::new();
        hasher.update(&self.bytes);
        hasher.update(&start.to_be_bytes());
        Secret {
            bytes: hasher.finalize(),
        }
    }
}
