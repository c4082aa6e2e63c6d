//! Laws of the definitions: functions without a body, whose contracts are the laws.

ghost use Rattle.srt_watch.specs.Reloads.{AreFollowed};
ghost use Rattle.srt_watch.specs.Shares.{RefusalsCostNothing};

/// Over any sequence of polls of the configuration's file, with right and wrong contents: the configuration in force is the
/// last one that was taken, or the first one. All that was requested of the run are the changes of the polls, in order.
pub fn followed_files()
    ensures { AreFollowed }
{}

/// Behind any flood of refused callers each line about a session or a route is written, or left out and counted, just as without
/// the flood.
pub fn refusals_cost_no_line()
    ensures { RefusalsCostNothing }
{}
