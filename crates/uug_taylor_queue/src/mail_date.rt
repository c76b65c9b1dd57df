//! The words of a date in the first line of a mail.
ghost use Rattle.std.specs.Prelude.{◌≡◌, ◌≤◌};
ghost use Rattle.uug_taylor_queue.specs.MailDates.{day_named, day_word, march_year, month_shift, month_word, weekday_of};

use uug_taylor_text::Moment;

/// Returns the name of a month, counted from 1.
pub fn month_word(month: u8) -> &'static str
    ensures { result.now ≡ month_word month }
{
    match month {
        1 => "Jan",
        2 => "Feb",
        3 => "Mar",
        4 => "Apr",
        5 => "May",
        6 => "Jun",
        7 => "Jul",
        8 => "Aug",
        9 => "Sep",
        10 => "Oct",
        11 => "Nov",
        _ => "Dec",
    }
}

/// Returns the offset of a month in the formula for the day of the week, in which years begin in March.
fn month_shift(month: u8) -> u32
    ensures exact { result ≡ month_shift month }
    ensures small { result ≤ 6 }
{
    match month {
        1 => 0,
        2 => 3,
        3 => 2,
        4 => 5,
        5 => 0,
        6 => 3,
        7 => 5,
        8 => 1,
        9 => 4,
        10 => 6,
        11 => 2,
        _ => 4,
    }
}

/// Returns the year to which a month belongs, if years begin in March.
fn march_year(year: u16, month: u8) -> u16
    ensures { result ≡ march_year year month }
{
    if month < 3 {
        year.saturating_sub(1)
    } else {
        year
    }
}

/// Returns the day of the week, from 0 for Sunday to 6 for Saturday.
fn weekday_of(moment: &Moment) -> u32
    ensures { result ≡ weekday_of moment.now }
{
    let year = u32::from(march_year(moment.year, moment.month));
    let shift = month_shift(moment.month);
    (year + year / 4 + 6 * (year / 100) + year / 400 + shift + u32::from(moment.day)) % 7
}

fn day_named(day: u32) -> &'static str
    ensures { result.now ≡ day_named day }
{
    match day {
        0 => "Sun",
        1 => "Mon",
        2 => "Tue",
        3 => "Wed",
        4 => "Thu",
        5 => "Fri",
        _ => "Sat",
    }
}

/// Returns the name of the day of the week.
pub fn day_word(moment: &Moment) -> &'static str
    ensures { result.now ≡ day_word moment.now }
{
    day_named(weekday_of(moment))
}
