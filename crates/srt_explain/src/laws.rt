//! Laws of the definitions.

ghost use Rattle.srt_explain.specs.Warnings.{WarnsOfSmallOutboxes, WarnsOfNoKey, WarnsOfNoPassphrase};
ghost use Rattle.srt_explain.specs.Texts.{TellsNoSecret};

/// A route is warned of its outbox exactly if that can't hold the replies of one event, at most 66 for each session and 4
/// more. That an event has no more of them is a law of `srt_route`.
pub fn outboxes()
    ensures { WarnsOfSmallOutboxes }
{}

/// The warnings about a configuration are the same whatever the keys of its routes' roles are: they state that a role has a
/// key, and never which.
pub fn keys()
    ensures { WarnsOfNoKey }
{}

/// The warnings about the passphrases of a route are the same for all passphrases that are as short, the same as the other role's, or
/// neither: they state that, and never which bytes one has.
pub fn passphrases()
    ensures { WarnsOfNoPassphrase }
{}

/// The texts of the warnings about a configuration are the same whatever its secret and the keys of its routes' roles are, except
/// that the secret of the example has a warning.
pub fn texts()
    ensures { TellsNoSecret }
{}
