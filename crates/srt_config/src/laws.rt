//! Laws of the definitions.

ghost use Rattle.srt_config.specs.KeyFaults.{IsFirstFault};
ghost use Rattle.srt_config.specs.AllFaultLaws.{FirstIsRead};
ghost use Rattle.srt_config.specs.PlaceLaws.{PlacesTheFault, PlacesTheDefaults};
ghost use Rattle.srt_config.specs.DefaultLaws.{OwnBeforeDefault, NoneWithoutDefaults, WrittenOutStays};
ghost use Rattle.srt_config.specs.ChangeLaws.{SameKeysDecide, SameRequestsNothing, ChangesAreMeant, RunsTheFile};
ghost use Rattle.srt_config.specs.ChangeLaws.{ExpectationsRequestNothing};
ghost use Rattle.srt_config.specs.Readmission.{ReadmissionsAreMeant, ReadmissionsReopen, OtherSecretsReopen};
ghost use Rattle.srt_config.specs.EncryptionLaws.{EncryptionIsWritten, EncryptionIsRight};

/// The fault of a configuration is that of the first key that has one, in this order: the least unknown key of the
/// table, `secret`, `bind`, `workers`, `status`, the keys of `defaults`, and `route`; then for each route its least unknown key
/// and its keys.
pub fn configurations()
    ensures { IsFirstFault }
{}

/// A fault with a route's number is one of the route of this number, and all routes before it are without a fault. A fault of
/// the defaults is one of their keys.
pub fn places()
    ensures routes { PlacesTheFault }
    ensures defaults { PlacesTheDefaults }
{}

/// A route has its own value at each key of its table, whatever the defaults are, and the default at each key that it lacks. A
/// configuration without defaults is read as it is, and so is a route that has every key of the defaults.
pub fn defaults()
    ensures own { OwnBeforeDefault }
    ensures none { NoneWithoutDefaults }
    ensures written { WrittenOutStays }
{}

/// A route has the passphrases and the length of keys that its table states, with its defaults, and none where its table has no such
/// key. A passphrase has 10 to 79 bytes, and only a route with a passphrase has a length of keys.
pub fn encryption()
    ensures written { EncryptionIsWritten }
    ensures right { EncryptionIsRight }
{}

/// Two routes of configurations are compared exactly: the test says that their keys are the same if, and only if, all of
/// them have the same values. A configuration that is the same as the one before requests nothing of a running gateway, also
/// if other routes are expected to be on air. A route stays only if all of its keys have the values from before, lists, keys of
/// roles and rules included. Once all changes are made, the routes that run are those of the file.
pub fn changes()
    ensures keys { SameKeysDecide }
    ensures same { SameRequestsNothing }
    ensures expectations { ExpectationsRequestNothing }
    ensures meant { ChangesAreMeant }
    ensures runs { RunsTheFile }
{}

/// A route of a changed configuration is found to differ in lists and keys alone exactly if it does: it isn't the route from before, and
/// with its lists and keys in place of its own that one is the route of the file. Such a route is one that closes and opens again. One
/// with another passphrase or another length of keys closes and opens again too, and isn't such a route.
pub fn readmissions()
    ensures meant { ReadmissionsAreMeant }
    ensures reopen { ReadmissionsReopen }
    ensures secrets { OtherSecretsReopen }
{}

/// The first of all faults of a configuration is the one that reading it returns, with the part that has it; there is none exactly if it
/// is read without a fault.
pub fn listing()
    ensures { FirstIsRead }
{}
