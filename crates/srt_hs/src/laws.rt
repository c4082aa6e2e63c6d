//! Laws of the definitions.

ghost use Rattle.srt_hs.specs.Tie.{ReadingIsSpelling, FaultIsTheFirst};
ghost use Rattle.srt_hs.specs.RoundTrip.{WhatIsWrittenReadsBack, HsrspReadsBack};
ghost use Rattle.srt_hs.specs.KeyMessage.{KeyReadingIsSpelling, KeysReadBack};
ghost use Rattle.srt_hs.specs.Text.{MessagesAreAnswered};

/// Reading returns the handshake that the bytes encode, or the first fault from the left.
pub fn reading()
    ensures spelled { ReadingIsSpelling }
    ensures fault { FaultIsTheFirst }
{}

/// Reading a written answer returns its fields. `read` skips the HSRSP block of a conclusion; read as an HSREQ block,
/// it has the written values.
pub fn round_trip()
    ensures answer { WhatIsWrittenReadsBack }
    ensures hsrsp { HsrspReadsBack }
{}

/// Reading a key material message returns the one that the bytes encode, and a written message reads back. Each one has 56
/// to 104 bytes, and the encryption field of an answer that repeats it is its key length, divided by 8.
pub fn key_messages()
    ensures spelled { KeyReadingIsSpelling }
    ensures back { KeysReadBack }
    ensures answered { MessagesAreAnswered }
{}
