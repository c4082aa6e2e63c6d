//! The reasons for a refusal with their numbers, names and causes, and the order in which the causes are checked
//! (draft-sharabayko-srt-01, section 4.3, table 7).

ghost use Rattle.std.specs.Prelude.{◌≡◌, Some};
ghost use Rattle.srt_hs.specs.Refusals.{number_of, code_with, refusal_name, name_of};

/// Why a conclusion is refused (section 4.3, table 7). The code is written as the handshake type of the answer; the
/// name after it is libsrt's. Which cause leads to which reason is our choice. A conclusion that is no well-formed
/// handshake, or has a wrong cookie, isn't answered.
///
/// If several causes apply, the first one determines the reason. `srt_lobby` checks, in this order: the version (1008),
/// the initial number and the HSREQ (1004), a KMREQ for a role without a passphrase (1011), FILTER (1014), GROUP (1015),
/// the Stream ID and its route (1002), and the keys for a role with a passphrase (1011). Then `srt_route` checks the flag
/// STREAM (1012), the MTU and the window (1004), a third publisher (1002), the number of sessions of the caller's IP
/// address (1003), a free slot (1003), whether the free slots are reserved for publishers (1003), and whether the keys can
/// be unwrapped (1010).
#[derive(Clone, Copy, Debug, PartialEq, Eq)]
pub enum RefusalCode {
    /// 1002, `SRT_REJ_PEER`: the conclusion has no Stream ID block. Or its Stream ID has a fault: not UTF-8, a mode
    /// other than `publish` and `request`, `r` or `m` twice, no name or an empty one. Or no route has the requested
    /// name. Or the route doesn't admit the caller in the requested role: the role's list lacks its address, or the
    /// role's key is missing or wrong. Or the caller requests to publish while two publishers of the route are open.
    Peer,
    /// 1003, `SRT_REJ_RESOURCE`: as many sessions of the route are open as its configuration allows, in total or for
    /// one IP address. Or all free slots are reserved for publishers, and the caller isn't one.
    Resource,
    /// 1004, `SRT_REJ_ROGUE`: the top bit of the initial sequence number is set; or there is no HSREQ block; or the MTU
    /// is below 76 bytes; or the flow window is 0; or the caller requests a stream in buffer mode with an MTU below
    /// 1500 bytes.
    Rogue,
    /// 1008, `SRT_REJ_VERSION`: the version of the handshake isn't 5.
    Version,
    /// 1010, `SRT_REJ_BADSECRET`: the requested role has a passphrase, and the keys of the KMREQ block can't be unwrapped with the
    /// key that is derived from it: the caller has another passphrase.
    BadSecret,
    /// 1011, `SRT_REJ_UNSECURE`: there is a KMREQ block, and the requested role has no passphrase. Or it has one, and the
    /// conclusion hasn't exactly one KMREQ block with a key material message of the required key length.
    Unsecure,
    /// 1012, `SRT_REJ_MESSAGEAPI`: the flag STREAM of the HSREQ is set for a route in live mode, or not set for one in
    /// buffer mode.
    MessageApi,
    /// 1014, `SRT_REJ_FILTER`: there is a FILTER block. The gateway has no packet filter.
    Filter,
    /// 1015, `SRT_REJ_GROUP`: there is a GROUP block. The gateway has no connection groups.
    Group,
}

impl RefusalCode {
    /// Returns the number of a reason, which is the handshake type of a refusal (section 4.3, table 7).
    pub fn number(self) -> u32
        ensures { result ≡ number_of self }
    {
        match self {
            RefusalCode::Peer => 1002,
            RefusalCode::Resource => 1003,
            RefusalCode::Rogue => 1004,
            RefusalCode::Version => 1008,
            RefusalCode::BadSecret => 1010,
            RefusalCode::Unsecure => 1011,
            RefusalCode::MessageApi => 1012,
            RefusalCode::Filter => 1014,
            RefusalCode::Group => 1015,
        }
    }

    /// Returns the reason with this number; `None` if the gateway never refuses for it. Inverse to
    /// [`number`](RefusalCode::number).
    #[tactic(auto, unfolding(crate::specs::Refusals::code_with))]
    pub fn of_number(number: u32) -> Option<RefusalCode>
        ensures value { result ≡ code_with number }
        ensures found { (code : RefusalCode) → result ≡ Some code → number_of code ≡ number }
        ensures only { (code : RefusalCode) → number_of code ≡ number → result ≡ Some code }
    {
        match number {
            1002 => Some(RefusalCode::Peer),
            1003 => Some(RefusalCode::Resource),
            1004 => Some(RefusalCode::Rogue),
            1008 => Some(RefusalCode::Version),
            1010 => Some(RefusalCode::BadSecret),
            1011 => Some(RefusalCode::Unsecure),
            1012 => Some(RefusalCode::MessageApi),
            1014 => Some(RefusalCode::Filter),
            1015 => Some(RefusalCode::Group),
            _ => None,
        }
    }

    /// Returns the name of a reason, by its number, as [`refusal_name`] does.
    pub fn name(self) -> &'static str
        ensures { result.now ≡ name_of self }
    {
        refusal_name(self.number())
    }
}

/// Returns the name of the reason with this number (section 4.3, table 7): `PEER` for `REJ_PEER`, which libsrt calls
/// `SRT_REJ_PEER`. The table has numbers for which the gateway never refuses. For one that it doesn't have: `UNKNOWN`, as
/// for 1000.
#[tactic(auto, unfolding(crate::specs::Refusals::refusal_name))]
pub fn refusal_name(number: u32) -> &'static str
    ensures { result.now ≡ refusal_name number }
{
    match number {
        1001 => "SYSTEM",
        1002 => "PEER",
        1003 => "RESOURCE",
        1004 => "ROGUE",
        1005 => "BACKLOG",
        1006 => "IPE",
        1007 => "CLOSE",
        1008 => "VERSION",
        1009 => "RDVCOOKIE",
        1010 => "BADSECRET",
        1011 => "UNSECURE",
        1012 => "MESSAGEAPI",
        1013 => "CONGESTION",
        1014 => "FILTER",
        1015 => "GROUP",
        _ => "UNKNOWN",
    }
}
