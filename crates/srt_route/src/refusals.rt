//! Causes for which a route refuses a conclusion.

ghost use Rattle.std.specs.Prelude.{◌≡◌};
ghost use Rattle.srt_route.specs.Route.{code_of};

use srt_hs::RefusalCode;

/// The cause for which a route refuses a conclusion. The variants are in the order in which they are checked.
#[derive(Clone, Copy, Debug, PartialEq, Eq)]
pub enum RefusalCause {
    /// The flag STREAM doesn't match the route's mode: 1012 (SRT_REJ_MESSAGEAPI).
    MessageApi,
    /// The MTU or the flow window is out of range: 1004 (SRT_REJ_ROGUE).
    Rogue,
    /// It would be a third publisher: 1002 (SRT_REJ_PEER).
    Peer,
    /// The caller's address already has as many open sessions as the route allows for one address: 1003
    /// (SRT_REJ_RESOURCE).
    Address,
    /// No slot is free: 1003.
    Resource,
    /// A subscriber, while the free slots are reserved for publishers: 1003.
    Reserved,
    /// Its keys can't be unwrapped: the caller has another passphrase: 1010 (SRT_REJ_BADSECRET).
    Secret,
}

impl RefusalCause {
    /// Returns the rejection code that is sent for this cause (section 4.3).
    pub fn code(self) -> RefusalCode
        ensures { result ≡ code_of self }
    {
        match self {
            RefusalCause::MessageApi => RefusalCode::MessageApi,
            RefusalCause::Rogue => RefusalCode::Rogue,
            RefusalCause::Peer => RefusalCode::Peer,
            RefusalCause::Address => RefusalCode::Resource,
            RefusalCause::Resource => RefusalCode::Resource,
            RefusalCause::Reserved => RefusalCode::Resource,
            RefusalCause::Secret => RefusalCode::BadSecret,
        }
    }
}
