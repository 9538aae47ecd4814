ghost use Rattle.std.specs.Prelude.{◌≡◌, ◌≤◌, ◌<◌, ◌-◌, ◌*◌, ◌^◌, Some, IfSome, length};
ghost use Rattle.std.specs.Option.{option_map};
ghost use Rattle.std.specs.Str.Parse.{digits_value};
ghost use Rattle.jiff_core.specs.Calendar.{IsWithin};
ghost use Rattle.cel_value.specs.Reading as spec;
ghost use Rattle.cel_value.specs.Views.{read, capped, capped_part, AreDigits};

use crate::Timestamp;
use jiff::civil::Date;

/// The instant that a text spells, if it spells one (RFC 3339, section 5.6, `date-time`).
pub fn read_timestamp(text: &str) -> Option<Timestamp>
    ensures { result ≡ spec.timestamp_of text.now }
{
    let bytes = text.as_bytes();
    if bytes.len() < 20 || !is_separator(bytes[10]) {
        return None;
    }
    let day = day_spelled(&bytes[..10])?;
    let second = second_spelled(&bytes[11..19])?;
    let (fraction, rest) = fraction_spelled(&bytes[19..])?;
    let offset = offset_spelled(rest)?;
    instant(day, second, offset, fraction)
}

/// Whether a byte may be between a date and a time.
fn is_separator(byte: u8) -> bool
    ensures { result ≡ spec.is_separator byte }
{
    byte == b'T' || byte == b't'
}

/// The instant at a second and billionths of a day, on a clock that is so many seconds ahead of UTC.
fn instant(day: i32, second: u32, offset: i32, fraction: u32) -> Option<Timestamp>
    requires second { second < 86_400 }
    requires offset { IsWithin 86_399 offset }
    requires fraction { fraction < 1_000_000_000 }
    ensures { result ≡ spec.instant_at day second offset fraction }
{
    let seconds = i64::from(day) * 86_400 + i64::from(second) - i64::from(offset);
    Timestamp::from_nanosecond(i128::from(seconds) * 1_000_000_000 + i128::from(fraction))
}

/// The first instant in UTC of the day that a text spells, if it spells one (RFC 3339, section 5.6, `full-date`).
pub fn read_date(text: &str) -> Option<Timestamp>
    ensures { result ≡ spec.date_of text.now }
{
    let day = day_spelled(text.as_bytes())?;
    Timestamp::from_nanosecond(i128::from(day) * 86_400_000_000_000)
}

/// The number that digits spell. There are at most nine of them.
fn number_of(digits: &[u8]) -> Option<u32>
    requires { length digits.now ≤ 9 }
    ensures exact { result ≡ spec.number_of digits.now }
    ensures bound { IfSome result (λ n. n < 10 ^ length digits.now) }
{
    let mut number = 0;
    for digit in digits {
        if !digit.is_ascii_digit() {
            return None;
        }
        number = number * 10 + u32::from(digit - b'0');
    }
    Some(number)
}

/// The number of the day that a date spells: that of 1 January 1970 is 0.
fn day_spelled(bytes: &[u8]) -> Option<i32>
    ensures { result ≡ spec.day_spelled bytes.now }
{
    if bytes.len() != 10 || bytes[4] != b'-' || bytes[7] != b'-' {
        return None;
    }
    let year = number_of(&bytes[..4])?;
    let month = number_of(&bytes[5..7])?;
    let day = number_of(&bytes[8..])?;
    day_of_parts(year, month, day)
}

/// The number of a day, if the calendar has it.
fn day_of_parts(year: u32, month: u32, day: u32) -> Option<i32>
    requires year { year < 10_000 }
    requires month { month < 100 }
    requires day { day < 100 }
    ensures { result ≡ spec.day_of_parts (Some year) (Some month) (Some day) }
{
    match Date::new(year as i16, month as i8, day as i8) {
        Ok(date) => Some(date.to_plain().to_unix_epoch_day()),
        Err(_) => None,
    }
}

/// The second of a day that a time spells.
fn second_spelled(bytes: &[u8]) -> Option<u32>
    ensures exact { result ≡ spec.second_spelled bytes.now }
    ensures bound { IfSome result (λ n. n < 86_400) }
{
    if bytes.len() != 8 || bytes[2] != b':' || bytes[5] != b':' {
        return None;
    }
    let hour = number_of(&bytes[..2])?;
    let minute = number_of(&bytes[3..5])?;
    let second = number_of(&bytes[6..])?;
    if hour < 24 && minute < 60 && second < 60 {
        Some(hour * 3600 + minute * 60 + second)
    } else {
        None
    }
}

/// How many digits come first.
fn digits_in(bytes: &[u8]) -> usize
    ensures exact { result ≡ spec.digits_in bytes.now }
    ensures within { result ≤ length bytes.now }
{
    bytes
        .iter()
        .take_while(|byte| byte.is_ascii_digit())
        .count()
}

/// The billionths of the fraction that comes first, and what follows it.
fn fraction_spelled(bytes: &[u8]) -> Option<(u32, &[u8])>
    ensures exact { read result ≡ spec.fraction_spelled bytes.now }
    ensures bound { IfSome result (λ f. f.0 < 1_000_000_000) }
    ensures within { IfSome result (λ f. length f.1.now ≤ length bytes.now) }
{
    let [b'.', rest @ ..] = bytes else {
        return Some((0, bytes));
    };
    let count = digits_in(rest);
    if count < 1 || count > 9 {
        return None;
    }
    let (digits, rest) = rest.split_at(count);
    let number = number_of(digits)?;
    Some((in_billionths(number, count), rest))
}

/// What a number of so many places after a point is in billionths.
fn in_billionths(number: u32, places: usize) -> u32
    requires few { places ≤ 9 }
    requires bound { number < 10 ^ places }
    ensures exact { result ≡ number * 10 ^ (9 - places) }
    ensures bound { result < 1_000_000_000 }
{
    let mut value = number;
    'places: for _ in places..9 {
        value *= 10;
    }
    value
}

/// The seconds ahead of UTC that an offset spells.
fn offset_spelled(bytes: &[u8]) -> Option<i32>
    ensures exact { result ≡ spec.offset_spelled bytes.now }
    ensures bound { IfSome result (IsWithin 86_399) }
{
    match bytes {
        [b'Z' | b'z'] => Some(0),
        [b'+', clock @ ..] => Some(clock_spelled(clock)? as i32),
        [b'-', clock @ ..] => Some(-(clock_spelled(clock)? as i32)),
        _ => None,
    }
}

/// The seconds that a clock without seconds shows.
fn clock_spelled(bytes: &[u8]) -> Option<u32>
    ensures exact { result ≡ spec.clock_spelled bytes.now }
    ensures bound { IfSome result (λ n. n < 86_400) }
{
    if bytes.len() != 5 || bytes[2] != b':' {
        return None;
    }
    let hour = number_of(&bytes[..2])?;
    let minute = number_of(&bytes[3..])?;
    if hour < 24 && minute < 60 {
        Some(hour * 3600 + minute * 60)
    } else {
        None
    }
}

/// The duration that a text spells, if it spells one (Go, `time.ParseDuration`).
pub fn read_duration(text: &str) -> Option<i64>
    ensures { result ≡ spec.duration_of text.now }
{
    let (negative, length) = match text.as_bytes() {
        [b'-', rest @ ..] => (true, length_spelled(rest)?),
        [b'+', rest @ ..] => (false, length_spelled(rest)?),
        bytes => (false, length_spelled(bytes)?),
    };
    let length = i128::from(length);
    i64::try_from(if negative { -length } else { length }).ok()
}

/// The nanoseconds that a text without a sign spells.
fn length_spelled(bytes: &[u8]) -> Option<u64>
    ensures { result ≡ option_map capped (spec.length_spelled bytes.now) }
{
    match bytes {
        [b'0'] => Some(0),
        [] => None,
        _ => parts_spelled(bytes),
    }
}

/// The sum of the parts that a text is made of.
fn parts_spelled(bytes: &[u8]) -> Option<u64>
    ensures { result ≡ option_map capped (spec.parts_spelled (length bytes.now) bytes.now) }
{
    let mut rest = bytes;
    let mut total: u64 = 0;
    while !rest.is_empty() {
        let (part, behind) = part_spelled(rest)?;
        total = total.saturating_add(part);
        rest = behind;
    }
    Some(total)
}

/// The part that comes first: digits, perhaps a fraction, and a unit.
fn part_spelled(bytes: &[u8]) -> Option<(u64, &[u8])>
    ensures exact { read result ≡ capped_part (spec.part_spelled bytes.now) }
    ensures shorter { IfSome result (λ p. length p.1.now < length bytes.now) }
{
    let count = digits_in(bytes);
    if count < 1 {
        return None;
    }
    let (digits, rest) = bytes.split_at(count);
    let (fraction, rest) = fraction_spelled(rest)?;
    let (unit, rest) = rest.split_at(letters_in(rest));
    let unit = unit_of(unit)?;
    let cut = (u128::from(fraction) * u128::from(unit) / 1_000_000_000) as u64;
    Some((
        whole_of(digits).saturating_mul(unit).saturating_add(cut),
        rest,
    ))
}

/// The number that digits spell.
fn whole_of(digits: &[u8]) -> u64
    requires { AreDigits digits.now }
    ensures { result ≡ capped (digits_value 10 digits.now) }
{
    let mut number: u64 = 0;
    for digit in digits {
        number = number
            .saturating_mul(10)
            .saturating_add(u64::from(digit - b'0'));
    }
    number
}

/// How many bytes that are no digits come first.
fn letters_in(bytes: &[u8]) -> usize
    ensures exact { result ≡ spec.letters_in bytes.now }
    ensures within { result ≤ length bytes.now }
{
    bytes
        .iter()
        .take_while(|byte| !byte.is_ascii_digit())
        .count()
}

/// The nanoseconds of a unit.
fn unit_of(unit: &[u8]) -> Option<u64>
    ensures exact { result ≡ spec.unit_of unit.now }
    ensures bound { IfSome result (λ n. n ≤ 3_600_000_000_000) }
{
    match unit {
        [b'h'] => Some(3_600_000_000_000),
        [b'm'] => Some(60_000_000_000),
        [b's'] => Some(1_000_000_000),
        [b'm', b's'] => Some(1_000_000),
        [b'u', b's'] => Some(1_000),
        [b'n', b's'] => Some(1),
        _ => None,
    }
}
