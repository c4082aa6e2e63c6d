//! Laws of the definitions.

ghost use Rattle.srt_session_keys.specs.Limiter.{RouteIsLimited, GroupIsLimited, DelaysChangeNothing};
ghost use Rattle.srt_session_keys.specs.Publisher.{RepeatsChangeNothing, RefusalsChangeNothing, OtherKeysStay};
ghost use Rattle.srt_session_keys.specs.Source.{TextsAreDistinct, CountsAreDistinct, NamesAlternate};
ghost use Rattle.srt_session_keys.specs.Subscriber.{StaysAhead, WindowHasItsKeys, WindowIsEncrypted, StoredKeysAreUsed, NumbersAreDistinct, IsAnnouncedBefore};

/// Of all requests for derivations between two times a route admits at most 20 and one each 50 ms, and of those of a group of
/// addresses at most 20 and one each 500 ms. If all requests come later by the same delay, the same ones are admitted.
pub fn derivations()
    ensures route { RouteIsLimited }
    ensures group { GroupIsLimited }
    ensures delayed { DelaysChangeNothing }
{}

/// The keys of two subscribers' sessions, or two keys of one session, are made of different texts.
pub fn own_keys()
    ensures { TextsAreDistinct }
{}

/// No key is made more than 65,536 payloads before it is needed. So the payloads of a window, of at most 8192, that may be sent
/// have one of the last two keys that were made, and [`SubscriberKeys::has_key`](crate::SubscriberKeys::has_key) holds of them. A
/// payload of which it holds can be encrypted, as [`SubscriberKeys::encrypt_packet`](crate::SubscriberKeys::encrypt_packet) requires.
pub fn stored_keys()
    ensures ahead { StaysAhead }
    ensures window { WindowHasItsKeys }
    ensures encrypted { WindowIsEncrypted }
    ensures used { StoredKeysAreUsed }
{}

/// A message that a publisher sends again is answered as before and changes nothing. One that isn't taken changes no key, and one that
/// is taken none that it doesn't name.
pub fn refreshes()
    ensures repeated { RepeatsChangeNothing }
    ensures refused { RefusalsChangeNothing }
    ensures other { OtherKeysStay }
{}

/// The sessions of a route have different counts, of which their keys are made ([`own_keys`]), and two payloads of a session have
/// different numbers or keys of different indexes. So a key stream is used twice only if two different texts give one key.
pub fn key_streams()
    ensures counts { CountsAreDistinct }
    ensures numbers { NumbersAreDistinct }
{}

/// A key takes the place of the one before the last, not of the last, and is announced before its payloads come.
pub fn announcements()
    ensures names { NamesAlternate }
    ensures before { IsAnnouncedBefore }
{}
