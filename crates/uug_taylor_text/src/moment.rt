//! The date and time in a line of a log.
ghost use Rattle.std.specs.Prelude.{◌≡◌, ◌++◌, OnOk};
ghost use Rattle.uug_taylor_text.specs.Moments.{moment_text, two_digits};

use std::alloc::{AllocError, Allocator};

/// A date and a time of day.
#[derive(Clone, Copy, Debug, PartialEq, Eq)]
pub struct Moment {
    /// The year. Only its last four digits are written.
    pub year: u16,
    /// The month, from 1 on.
    pub month: u8,
    /// The day of the month, from 1 on.
    pub day: u8,
    /// The hour, from 0 on.
    pub hour: u8,
    /// The minute.
    pub minute: u8,
    /// The second.
    pub second: u8,
    /// The hundredths of a second.
    pub hundredths: u8,
}

/// Returns the last two decimal digits of a number.
pub(crate) fn two_digits(number: u32) -> [u8; 2]
    ensures { result ≡ two_digits number }
{
    [b'0' + (number / 10 % 10) as u8, b'0' + (number % 10) as u8]
}

/// Returns the text of a moment: `YEAR-MONTH-DAY HOUR:MINUTE:SECOND.HUNDREDTHS`.
fn moment_text(moment: &Moment) -> [u8; 22]
    ensures { result ≡ moment_text moment.now }
{
    let (year, month, day) = (moment.year, moment.month, moment.day);
    let (hour, minute, second) = (moment.hour, moment.minute, moment.second);
    [
        b'0' + (year / 100 / 10 % 10) as u8,
        b'0' + (year / 100 % 10) as u8,
        b'0' + (year / 10 % 10) as u8,
        b'0' + (year % 10) as u8,
        b'-',
        b'0' + month / 10 % 10,
        b'0' + month % 10,
        b'-',
        b'0' + day / 10 % 10,
        b'0' + day % 10,
        b' ',
        b'0' + hour / 10 % 10,
        b'0' + hour % 10,
        b':',
        b'0' + minute / 10 % 10,
        b'0' + minute % 10,
        b':',
        b'0' + second / 10 % 10,
        b'0' + second % 10,
        b'.',
        b'0' + moment.hundredths / 10 % 10,
        b'0' + moment.hundredths % 10,
    ]
}

/// Appends the text of a moment.
pub(crate) fn add_moment<A: Allocator>(
    text: &mut Vec<u8, A>,
    moment: &Moment,
) -> Result<(), AllocError>
    ensures { OnOk result (text.new.items ≡ text.old.items ++ moment_text moment.now) }
{
    text.extend_from_slice(&moment_text(moment))
}
