//! Payload buffers, each filled in place by one copy.

ghost use Rattle.std.specs.Prelude.{◌≡◌, ◌≤◌, [], length, take};

use srt_types::protocol_limits::MAX_PAYLOAD;

#[derive(Drop)]
struct PayloadArray {
    bytes: [u8; MAX_PAYLOAD],
}

impl PayloadArray {
    fn write(&mut self, bytes: &[u8])
        requires { length bytes.now ≤ 1456 }
        ensures { take (length bytes.now) self.new.bytes ≡ bytes.now }
    {
        self.bytes[..bytes.len()].copy_from_slice(bytes);
    }
}

/// The payload of one packet, 0 to 1456 bytes. An array and a length, so that setting it costs exactly one copy.
#[derive(Drop)]
pub struct PayloadBuffer {
    len: usize,
    array: PayloadArray,
    pub ghost fits: { len ≤ 1456 },
}

impl PayloadBuffer {
    ghost use Rattle.srt_ring.specs.Buffers.{bytes_of};

    /// Returns an empty payload. Doesn't allocate: the value has a fixed size.
    pub fn new() -> PayloadBuffer
        ensures { bytes_of result ≡ [] }
    {
        PayloadBuffer {
            len: 0,
            array: PayloadArray {
                bytes: [0; MAX_PAYLOAD],
            },
        }
    }

    /// Replaces the payload by these bytes, at most 1456. Copies them once.
    pub fn set(&mut self, bytes: &[u8])
        requires { length bytes.now ≤ 1456 }
        ensures { bytes_of self.new ≡ bytes.now }
    {
        self.array.write(bytes);
        self.len = bytes.len();
    }

    /// Returns the payload's bytes.
    pub fn bytes(&self) -> &[u8]
        ensures value { result.now ≡ bytes_of self.now }
        ensures fits { length result.now ≤ 1456 }
    {
        &self.array.bytes[..self.len]
    }
}
