//! Laws of the definitions.

ghost use Rattle.std.specs.Prelude.{ℕ, List};
ghost use Rattle.srt_packet.specs.Reading.{ReadsTheSpelled};
ghost use Rattle.srt_packet.specs.Sent.{WhatIsSentIsSpelled, WhatIsSentIsRead};
ghost use Rattle.srt_packet.specs.Encryption.{EncryptionKeepsLengths, EncryptedPacketsAreRead, EncryptedTextsAreWritten};
ghost use Rattle.srt_packet.specs.KeyPacket.{KeyPacketReadingIsSpelling, KeyPacketsReadBack, KeyPacketsAreUserDefined};

/// Reading returns the packet that the bytes encode. If it returns a fault, the bytes encode no packet, and the fault
/// is the first that applies.
pub fn what_is_read_is_spelled()
    ensures { (bytes : List ℕ) → ReadsTheSpelled bytes }
{}

/// What is written conforms to the grammar, and reading it returns the same packet.
pub fn what_is_sent_is_read()
    ensures spelled { WhatIsSentIsSpelled }
    ensures read { WhatIsSentIsRead }
{}

/// Reading a packet that brings a key material message returns the one that the bytes encode, and what is written reads
/// back. For all other reading such a packet is a user-defined one.
pub fn key_packets()
    ensures spelled { KeyPacketReadingIsSpelling }
    ensures back { KeyPacketsReadBack }
    ensures others { KeyPacketsAreUserDefined }
{}

/// An encrypted data packet is as long as the one in clear, and is read as that with its field KK and the encrypted payload. Nothing
/// else of its header changes.
pub fn encryption()
    ensures lengths { EncryptionKeepsLengths }
    ensures read { EncryptedPacketsAreRead }
    ensures written { EncryptedTextsAreWritten }
{}
