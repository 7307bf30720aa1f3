// Instants as numbers, so that what holds one needs nothing of the library that reads and prints them.
ghost use Rattle.std.specs.Prelude.{◌≡◌};

use jiff::Timestamp;
use std::marker::Model;

/// An instant, which contracts see as the nanoseconds since the beginning of 1970 in UTC. It is one of those that `jiff` has, in the
/// years from -9999 to 9999.
#[derive(Clone, Copy, Debug, PartialEq, Eq)]
pub struct PlainInstant {
    nanosecond: i128,
}

impl Model for PlainInstant {
    ghost use Rattle.std.specs.Prelude.{ℤ};
    ghost use Rattle.jiff_core.specs.Timestamp.{IsTimestampNanos};

    ghost Value = { ℤ };

    ghost view = { λ t. t.nanosecond };

    ghost inverse = { λ n. record { nanosecond = n } };

    ghost invariant = { λ t. IsTimestampNanos t.nanosecond };
}

impl PlainInstant {
    /// Nanoseconds since the beginning of 1970 in UTC.
    pub fn nanosecond(&self) -> i128
        ensures { result ≡ self.now }
    {
        self.nanosecond
    }
}

/// The instant, for the calls of `jiff`. It is no method of the instant, so that what holds one needs nothing of `jiff`.
pub fn timestamp_of(at: PlainInstant) -> Timestamp
    ensures { result.nanosecond ≡ at }
{
    match Timestamp::from_nanosecond(at.nanosecond) {
        Ok(at) => at,
        Err(_) => unreachable!(),
    }
}

/// The instant of a timestamp of `jiff`.
pub fn instant_of(at: Timestamp) -> PlainInstant
    ensures { result ≡ at.nanosecond }
{
    PlainInstant {
        nanosecond: at.as_nanosecond(),
    }
}
