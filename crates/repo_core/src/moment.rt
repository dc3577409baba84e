//! Moments, and their text in the property `svn:date`.
ghost use Rattle.std.specs.Prelude.{◌≡◌, ◌≤◌, ◌↔◌, IsSome, IfSome, IfOk, string_bytes};
ghost use Rattle.repo_core.specs.Dates.{IsMoment, date_text, day_text, clock_text};

use jiff_core::civil::DateTime;
use jiff_core::{Offset, Timestamp};
use std::alloc::{AllocError, Global};
use std::marker::Model;

/// The last microsecond of 2099, counted from the beginning of 1970.
pub const LAST_MICROSECOND: u64 = 4_102_444_799_999_999;

/// A moment of the years 1970 to 2099 at a microsecond, seen by contracts as what a clock at UTC shows.
#[derive(Clone, Copy, Drop)]
pub struct Moment {
    civil: DateTime,
}

impl Model for Moment {
    ghost use Rattle.jiff_core.specs.declared.civil.datetime.DateTime.{DateTime};

    ghost Value = { DateTime };

    ghost view = { λ a. a.civil };

    ghost inverse = { λ d. record { civil = d } };
}

impl Moment {
    /// The moment that many microseconds after 1970 began, in UTC and without leap seconds. None from the year 2100
    /// on, which begins at 4,102,444,800,000,000.
    pub fn from_micros(micros: u64) -> Option<Moment>
        ensures range { IsSome result ↔ (micros ≤ 4102444799999999) }
        ensures moment { IfSome result (λ at. IsMoment micros at) }
    {
        if micros > LAST_MICROSECOND {
            return None;
        }
        let moment = Timestamp::from_nanosecond(micros as i128 * 1_000).ok()?;
        Some(Moment {
            civil: Offset::UTC.to_datetime(moment),
        })
    }

    /// Its text as Subversion writes a date: `YYYY-MM-DDThh:mm:ss.uuuuuuZ`.
    pub fn date_text(self, alloc: Global) -> Result<String, AllocError>
        ensures { IfOk result (λ s. string_bytes s ≡ date_text self) }
    {
        let day = day_text(alloc, self.civil)?;
        let clock = clock_text(alloc, self.civil)?;
        format!(in alloc; "{}T{}Z", day.as_str(), clock.as_str())
    }
}

// YYYY-MM-DD
fn day_text(alloc: Global, at: DateTime) -> Result<String, AllocError>
    ensures { IfOk result (λ s. string_bytes s ≡ day_text at) }
{
    let date = at.date;
    let year = date.year.unsigned_abs();
    format!(in alloc; "{year:04}-{:02}-{:02}", date.month, date.day)
}

// hh:mm:ss.uuuuuu
fn clock_text(alloc: Global, at: DateTime) -> Result<String, AllocError>
    ensures { IfOk result (λ s. string_bytes s ≡ clock_text at) }
{
    let time = at.time;
    let micros = time.subsec_nanosecond / 1_000;
    format!(in alloc;
        "{:02}:{:02}:{:02}.{micros:06}",
        time.hour, time.minute, time.second
    )
}
