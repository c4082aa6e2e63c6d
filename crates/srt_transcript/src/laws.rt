//! Laws of the definitions.

ghost use Rattle.srt_transcript.specs.Transcript.{EventsOfFewerRoutes};

/// A line that is an event of a replay, over a gateway with however many routes, is one in a transcript. So the first line
/// that isn't an event in a transcript is no event of any replay either.
pub fn fewer_routes()
    ensures { EventsOfFewerRoutes }
{}
