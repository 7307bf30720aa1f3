// Instants, which contracts see as nanoseconds since 1970-01-01T00:00:00Z.
ghost use Rattle.std.specs.Prelude.{◌≡◌, Some, IfOk, string_bytes};
ghost use Rattle.serde_json.specs.Data.{string};
ghost use Rattle.serde_json.specs.View.{view};
ghost use Rattle.spec_base.specs.Refusal.{Reads};
ghost use Rattle.pkg_versions.specs.RegistryFiles.{time};
ghost use Rattle.version_dates.specs.Times.{precision_of, time_of, time_text};

use jiff::Timestamp;
use jiff::fmt::temporal::DateTimePrinter;
use jiff::tz::Offset;
use json_documents::Json;
use json_forms::{Form, Misfit, text_json};
use serde_json::Value;
use spec_base::Refusal;
use std::alloc::{AllocError, Global};
use std::fmt;
use std::marker::Model;
use version_dates::{PlainInstant, instant_of, timestamp_of};

/// An instant, which contracts see as the nanoseconds since the beginning of 1970 in UTC.
#[derive(Drop)]
pub struct PlainTimestamp {
    at: PlainInstant,
}

impl Model for PlainTimestamp {
    ghost use Rattle.std.specs.Prelude.{ℤ};

    ghost Value = { ℤ };

    ghost view = { λ t. t.at };
}

impl PlainTimestamp {
    /// The instant alone.
    pub fn as_instant(&self) -> PlainInstant
        ensures { result ≡ self.now }
    {
        self.at
    }
}

impl From<PlainInstant> for PlainTimestamp {
    ghost from_gives = { λ at t. t ≡ at };

    fn from(at: PlainInstant) -> PlainTimestamp {
        PlainTimestamp { at }
    }
}

impl Clone for PlainTimestamp {
    ghost is_clone = { λ t copy. copy ≡ t };

    fn clone(&self) -> Result<PlainTimestamp, AllocError> {
        Ok(PlainTimestamp { at: self.at })
    }
}

impl fmt::Debug for PlainTimestamp {
    fn fmt<W: fmt::Write>(&self, f: &mut fmt::Formatter<W>) -> fmt::Result {
        fmt::Debug::fmt(&timestamp_of(self.at), f)
    }
}

impl PlainTimestamp {
    /// The text of the instant in UTC (RFC 3339): `YYYY-MM-DDTHH:MM:SS`, then a dot and nine digits where
    /// the second isn't whole, then `Z`. A year below 0 is a sign and six digits. The only refusal is want
    /// of memory.
    pub fn to_text(&self, alloc: Global) -> Result<String, AllocError>
        ensures value { IfOk result (λ text. string_bytes text ≡ time_text self.now) }
        ensures reads_back { time_of (time_text self.now) ≡ Some self.now }
    {
        time_text(alloc, timestamp_of(self.at))
    }

    pub(crate) fn to_json(&self, alloc: Global) -> Result<Value, AllocError>
        ensures value { IfOk result (λ v. view v ≡ string (time_text self.now)) }
        ensures reads_back { time_of (time_text self.now) ≡ Some self.now }
    {
        let text = self.to_text(alloc)?;
        text_json(alloc, text.as_str())
    }

    /// A copy.
    pub fn try_clone(&self) -> Result<PlainTimestamp, AllocError>
        ensures { IfOk result (λ t. t ≡ self.now) }
    {
        self.clone()
    }
}

fn time_text(alloc: Global, at: Timestamp) -> Result<String, AllocError>
    ensures value { IfOk result (λ text. string_bytes text ≡ time_text at.nanosecond) }
    ensures reads_back { time_of (time_text at.nanosecond) ≡ Some at.nanosecond }
{
    let shown = Offset::UTC.to_datetime(at).to_plain();
    let precision = precision_of(shown.time.subsec_nanosecond);
    let printer = DateTimePrinter::new().precision(Some(precision));
    let text = printer.datetime_text(shown);
    let text = text.as_str();
    format!(in alloc; "{text}Z")
}

// How many digits of a second's fraction are written.
fn precision_of(nanosecond: u32) -> u8
    ensures { result ≡ precision_of nanosecond }
{
    if nanosecond == 0 { 0 } else { 9 }
}

impl Form for PlainTimestamp {
    ghost form = { time };

    fn read(_alloc: Global, value: &Json<'_, '_>) -> Result<PlainTimestamp, Refusal<Misfit>> {
        match value.as_str() {
            Some(text) => read_time(text),
            None => Err(Refusal::Is(Misfit)),
        }
    }
}

// The instant that a text tells, as `jiff` reads one.
fn read_time(text: &str) -> Result<PlainTimestamp, Refusal<Misfit>>
    ensures { Reads result (time_of text.now) }
{
    match text.parse::<Timestamp>() {
        Ok(at) => Ok(PlainTimestamp::from(instant_of(at))),
        Err(_) => Err(Refusal::Is(Misfit)),
    }
}
