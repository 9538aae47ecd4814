ghost use Rattle.std.specs.Prelude.{◌≡◌, ◌<◌, ◌≤◌, ◌+◌, ◌∷◌, ◌++◌, [], length, Some, IfOk, string_bytes, pos, ◌≤ℤ◌, unsigned_abs};
ghost use Rattle.cel_value.specs.Printed.{two_digits, four_digits, fraction_text, date_text, time_text, duration_text};
ghost use Rattle.cel_value.specs.Printed.{timestamp_text};
ghost use Rattle.cel_value.specs.Reading.{duration_of, timestamp_of};

use crate::Timestamp;
use base_containers::Text;
use jiff_core::civil::{Date, Time};
use std::alloc::{AllocError, Global};

/// A duration in seconds, with as many digits after the point as it needs.
pub fn printed_duration(alloc: Global, duration: i64) -> Result<Text, AllocError>
    ensures exact { IfOk result (λ text. text ≡ duration_text duration) }
    ensures back { IfOk result (λ text. duration_of text ≡ Some duration) }
    ensures short { IfOk result (λ text. length text ≤ 22) }
{
    let mut text = String::new(alloc);
    if duration < 0 {
        text.push('-')?;
    }
    let length = duration.unsigned_abs();
    text.push_str((length / 1_000_000_000).to_string(alloc)?.as_str())?;
    put_fraction(&mut text, (length % 1_000_000_000) as u32)?;
    text.push('s')?;
    Ok(Text::from_string(text))
}

/// An instant in UTC, with as many digits after the point as it needs.
pub fn printed_timestamp(alloc: Global, timestamp: Timestamp) -> Result<Text, AllocError>
    ensures exact { IfOk result (λ text. text ≡ timestamp_text timestamp) }
    ensures back { IfOk result (λ text. timestamp_of text ≡ Some timestamp) }
    ensures short { IfOk result (λ text. length text ≤ 30) }
{
    let civil = timestamp.civil();
    let mut text = String::new(alloc);
    put_date(&mut text, civil.date)?;
    text.push('T')?;
    put_time(&mut text, civil.time)?;
    text.push('Z')?;
    Ok(Text::from_string(text))
}

fn put_date(text: &mut String, date: Date) -> Result<(), AllocError>
    requires { pos 0 ≤ℤ date.year }
    ensures { IfOk result (λ _. string_bytes text.new
        ≡ string_bytes text.old ++ date_text (unsigned_abs date.year) date.month date.day) }
{
    put_four(text, date.year as u16)?;
    text.push('-')?;
    put_two(text, date.month)?;
    text.push('-')?;
    put_two(text, date.day)
}

fn put_time(text: &mut String, time: Time) -> Result<(), AllocError>
    ensures { IfOk result (λ _. string_bytes text.new
        ≡ string_bytes text.old ++ time_text time.hour time.minute time.second time.subsec_nanosecond) }
{
    put_two(text, time.hour)?;
    text.push(':')?;
    put_two(text, time.minute)?;
    text.push(':')?;
    put_two(text, time.second)?;
    put_fraction(text, time.subsec_nanosecond)
}

fn put_digit(text: &mut String, digit: u8) -> Result<(), AllocError>
    requires { digit < 10 }
    ensures { IfOk result (λ _. string_bytes text.new ≡ string_bytes text.old ++ (48 + digit) ∷ []) }
{
    text.push((b'0' + digit) as char)
}

fn put_two(text: &mut String, number: u8) -> Result<(), AllocError>
    requires { number < 100 }
    ensures { IfOk result (λ _. string_bytes text.new ≡ string_bytes text.old ++ two_digits number) }
{
    put_digit(text, number / 10)?;
    put_digit(text, number % 10)
}

fn put_four(text: &mut String, number: u16) -> Result<(), AllocError>
    requires { number < 10_000 }
    ensures { IfOk result (λ _. string_bytes text.new ≡ string_bytes text.old ++ four_digits number) }
{
    put_two(text, (number / 100) as u8)?;
    put_two(text, (number % 100) as u8)
}

/// A fraction with its point, up to the last digit that is not 0.
fn put_fraction(text: &mut String, billionths: u32) -> Result<(), AllocError>
    requires { billionths < 1_000_000_000 }
    ensures { IfOk result (λ _. string_bytes text.new ≡ string_bytes text.old ++ fraction_text billionths) }
{
    if billionths == 0 {
        return Ok(());
    }
    text.push('.')?;
    let mut left = billionths;
    let mut place = 1_000_000_000;
    'places: for _ in 0..9_u8 {
        if left == 0 {
            break;
        }
        place /= 10;
        put_digit(text, (left / place) as u8)?;
        left %= place;
    }
    Ok(())
}
