//! The socket IDs of a route's sessions: how one is composed, and the slot that one names.

ghost use Rattle.std.specs.Prelude.{◌≡◌, ℕ, ◌%◌, ◌<◌};
ghost use Rattle.srt_route.specs.Sessions.{id_of};

/// Returns the socket ID of a session (our choice): index + 1 at bit 20, the generation modulo 4096 at bit 8, and the
/// slot in the low 8 bits.
pub fn id_at(index: u32, generation: u16, at: usize) -> u32
    requires index { index < 511 }
    requires slot { at < 17 }
    ensures { (count : ℕ) → generation ≡ count % 65536 → result ≡ id_of index count at }
{
    (index + 1) * (1 << 20) + u32::from(generation % 4096) * 256 + at as u32
}

/// Returns the slot that a session's socket ID names: its low 8 bits.
pub fn slot_in(id: u32) -> usize
    ensures { result ≡ id % 256 }
{
    (id % 256) as usize
}
