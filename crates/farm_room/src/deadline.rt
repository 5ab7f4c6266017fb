//! How long clients may take.
ghost use Rattle.std.specs.Prelude.{◌≡◌, ◌↔◌, ◌*◌, ◌^◌, ◌<◌, IsTrue};
ghost use Rattle.std.specs.Duration.{as_nanos};
ghost use Rattle.std.specs.Option.{option_map};
ghost use Rattle.farm_room.specs.Waiting.{HasTimedOut, shorter, time_left};

use std::time::Duration;

/// How long a client may take over its request, and how long over its answer, in seconds.
pub const LIMIT_SECONDS: u64 = 10;

/// Whether the time of what began then is over at a time, or the time isn't known.
pub(crate) fn has_timed_out(since: Duration, now: Option<Duration>) -> bool
    ensures { IsTrue result ↔ HasTimedOut now since }
{
    now.is_none_or(|now| is_shorter(limit(), now.saturating_sub(since)))
}

/// How long it takes at a time until the time of what began then is over.
pub(crate) fn time_left(since: Duration, now: Duration) -> Duration
    ensures { as_nanos result ≡ time_left (as_nanos now) (as_nanos since) }
{
    // A millisecond beyond the limit the time is over.
    let limit = limit().saturating_add(Duration::from_millis(1));
    since.saturating_add(limit).saturating_sub(now)
}

/// The shorter of two times, or the only one.
pub(crate) fn shorter(one: Option<Duration>, other: Option<Duration>) -> Option<Duration>
    ensures { option_map as_nanos result ≡ shorter (option_map as_nanos one) (option_map as_nanos other) }
{
    match (one, other) {
        (Some(one), Some(other)) if is_shorter(one, other) => Some(one),
        (one, None) => one,
        (_, other) => other,
    }
}

/// Whether a time is shorter than another.
pub(crate) fn is_shorter(one: Duration, other: Duration) -> bool
    ensures { IsTrue result ↔ (as_nanos one < as_nanos other) }
{
    one.as_nanos() < other.as_nanos()
}

/// `LIMIT_SECONDS`.
pub(crate) fn limit() -> Duration
    ensures { as_nanos result ≡ 10 * 10 ^ 9 }
{
    Duration::from_secs(LIMIT_SECONDS)
}
