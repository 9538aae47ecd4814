ghost use Rattle.std.specs.Prelude.{◌≡◌, ℤ, pos, ◌+ℤ◌, ◌-ℤ◌, ◌/◌, ◌-◌};
ghost use Rattle.std.specs.Int.{int_div_euclid};
ghost use Rattle.cel_value.specs.Days.{day_of, day_time, place_in_year, weekday_of, hour_of, minute_of, second_of, nanosecond_of};
ghost use Rattle.cel_value.specs.Instants.{instant_of, duration_in_range, IsInstant, IsDayAndTime, IsFields};

use jiff_core::civil::DateTime;
use std::marker::Model;

/// An instant of the years 1 to 9999, which contracts see as its nanoseconds since 1970 began in UTC.
#[derive(Clone, Copy, Debug, PartialEq, Eq, PartialOrd, Ord)]
pub struct Timestamp {
    nanosecond: i128,
}

impl Model for Timestamp {
    ghost Value = { ℤ };

    ghost view = { λ t. t.nanosecond };

    ghost invariant = { λ t. IsInstant t.nanosecond };

    ghost inverse = { λ n. record { nanosecond = n } };
}

/// The first nanosecond of the year 1.
const FIRST: i128 = -62_135_596_800_000_000_000;

/// The last nanosecond of the year 9999.
const LAST: i128 = 253_402_300_799_999_999_999;

impl Timestamp {
    /// The instant so many nanoseconds after 1970 began, if it is in range.
    pub fn from_nanosecond(nanosecond: i128) -> Option<Timestamp>
        ensures { result ≡ instant_of nanosecond }
    {
        if FIRST <= nanosecond && nanosecond <= LAST {
            Some(Timestamp { nanosecond })
        } else {
            None
        }
    }

    /// The nanoseconds since 1970 began.
    pub fn nanosecond(self) -> i128
        ensures exact { result ≡ self }
        ensures range { IsInstant self }
    {
        self.nanosecond
    }

    /// An instant is the number of its day, as the calendar has it, and its time of day.
    #[tactic(auto, using(crate::proofs::Fields::whole_is))]
    pub fn day_and_time(self)
        ensures { IsDayAndTime self }
    {
        let _ = self.nanosecond;
    }

    /// The seconds since 1970 began, rounded down.
    pub fn second(self) -> i64
        ensures { result ≡ int_div_euclid self (pos 1_000_000_000) }
    {
        self.nanosecond.div_euclid(1_000_000_000) as i64
    }

    /// The instant that is a duration later, if it is in range.
    pub fn plus(self, duration: i64) -> Option<Timestamp>
        ensures { result ≡ instant_of (self +ℤ duration) }
    {
        Timestamp::from_nanosecond(self.nanosecond + i128::from(duration))
    }

    /// The instant that is a duration earlier, if it is in range.
    pub fn minus(self, duration: i64) -> Option<Timestamp>
        ensures { result ≡ instant_of (self -ℤ duration) }
    {
        Timestamp::from_nanosecond(self.nanosecond - i128::from(duration))
    }

    /// The duration from another instant to this one, if 64 bits hold it.
    pub fn since(self, other: Timestamp) -> Option<i64>
        ensures { result ≡ duration_in_range (self -ℤ other) }
    {
        i64::try_from(self.nanosecond - other.nanosecond()).ok()
    }

    /// The date and the time of day, in UTC.
    pub(crate) fn civil(self) -> DateTime
        ensures { IsFields result self }
    {
        DateTime::from_nanosecond_in_range(self.nanosecond)
    }

    /// The year, in UTC.
    pub fn year(self) -> i64
        ensures { result ≡ pos (day_of self).year }
    {
        i64::from(self.civil().date.year)
    }

    /// The month, from 0 for January.
    pub fn month(self) -> i64
        ensures { result ≡ pos ((day_of self).month - 1) }
    {
        i64::from(self.civil().date.month - 1)
    }

    /// The day of the month, from 1.
    pub fn date(self) -> i64
        ensures { result ≡ pos (day_of self).date }
    {
        i64::from(self.civil().date.day)
    }

    /// The day of the month, from 0.
    pub fn day_of_month(self) -> i64
        ensures { result ≡ pos ((day_of self).date - 1) }
    {
        i64::from(self.civil().date.day - 1)
    }

    /// The day of the week, from 0 for Sunday.
    pub fn day_of_week(self) -> i64
        ensures { result ≡ pos (weekday_of self) }
    {
        i64::from(self.civil().date.weekday().to_sunday_zero_offset())
    }

    /// The day of the year, from 0.
    pub fn day_of_year(self) -> i64
        ensures { result ≡ pos (place_in_year (day_of self)) }
    {
        i64::from(self.civil().date.day_of_year() - 1)
    }

    /// The hour of the day.
    pub fn hour(self) -> i64
        ensures { result ≡ pos (hour_of (day_time self)) }
    {
        i64::from(self.civil().time.hour)
    }

    /// The minute of the hour.
    pub fn minute(self) -> i64
        ensures { result ≡ pos (minute_of (day_time self)) }
    {
        i64::from(self.civil().time.minute)
    }

    /// The second of the minute.
    pub fn second_of_minute(self) -> i64
        ensures { result ≡ pos (second_of (day_time self)) }
    {
        i64::from(self.civil().time.second)
    }

    /// The millisecond of the second.
    pub fn millisecond(self) -> i64
        ensures { result ≡ pos (nanosecond_of (day_time self) / 1_000_000) }
    {
        i64::from(self.civil().time.subsec_nanosecond / 1_000_000)
    }
}
