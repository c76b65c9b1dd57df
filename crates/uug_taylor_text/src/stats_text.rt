//! The lines of the statistics of a spool, one for each file.
ghost use Rattle.std.specs.Prelude.{◌≡◌, ◌++◌, codes, IfOk, OnOk};
ghost use Rattle.uug_taylor_text.specs.Moments.{moment_text};
ghost use Rattle.uug_taylor_text.specs.ShownLines.{shown_stats};
ghost use Rattle.uug_taylor_text.specs.StatsLines.{amount_text, course_text, failure_text, seconds_text, speed, stats_line};

use crate::moment::{Moment, add_moment, two_digits};
use crate::parts::{add_named, add_number};
use std::alloc::{AllocError, Allocator};

/// The head of a line of the statistics: the file that it is about.
#[derive(Clone, Copy, Debug, PartialEq, Eq)]
pub struct StatsHead<'a> {
    /// The user that the job belongs to.
    pub user: &'a [u8],
    /// The other system.
    pub system: &'a [u8],
    /// The moment at which the transfer of the file ended.
    pub moment: Moment,
    /// The port of the call.
    pub port: &'a [u8],
}

/// The direction of a transfer.
#[derive(Clone, Copy, Debug, PartialEq, Eq)]
pub enum Course {
    /// Sent to the other system.
    Sent,
    /// Received from the other system.
    Received,
}

/// The bytes of a file that were transferred, and the time that this took.
#[derive(Clone, Copy, Debug, PartialEq, Eq)]
pub struct Amount {
    /// The number of bytes.
    pub bytes: u32,
    /// The number of milliseconds.
    pub thousandths: u32,
}

fn course_text(course: Course) -> &'static [u8]
    ensures { result.now ≡ course_text course }
{
    match course {
        Course::Sent => b"sent ",
        Course::Received => b"received ",
    }
}

fn failure_text(has_failed: bool) -> &'static [u8]
    ensures { result.now ≡ failure_text has_failed }
{
    if has_failed { b"failed after " } else { b"" }
}

/// Returns the bytes per second, or 0 if no time has passed.
fn speed(bytes: u32, thousandths: u32) -> u64
    ensures { result ≡ speed bytes thousandths }
{
    if thousandths == 0 {
        0
    } else {
        u64::from(bytes) * 1000 / u64::from(thousandths)
    }
}

/// Appends a time in seconds, with three digits after the point.
fn add_seconds<A: Allocator>(line: &mut Vec<u8, A>, thousandths: u32) -> Result<(), AllocError>
    ensures { OnOk result (line.new.items ≡ line.old.items ++ seconds_text thousandths) }
{
    add_number(line, b"", u64::from(thousandths / 1000))?;
    let [tens, last] = two_digits(thousandths);
    line.extend_from_slice(&[b'.', b'0' + (thousandths / 100 % 10) as u8, tens, last])
}

/// Appends the bytes of a file that were transferred, the time that this took, and the bytes per second.
fn add_amount<A: Allocator>(line: &mut Vec<u8, A>, amount: Amount) -> Result<(), AllocError>
    ensures { OnOk result (line.new.items
        ≡ line.old.items ++ amount_text amount.bytes amount.thousandths) }
{
    add_number(line, b"", u64::from(amount.bytes))?;
    line.extend_from_slice(b" bytes in ")?;
    add_seconds(line, amount.thousandths)?;
    add_number(line, b" seconds (", speed(amount.bytes, amount.thousandths))?;
    line.extend_from_slice(b" bytes/sec)")
}

/// Appends the user, the system and the moment of a file.
fn add_file<A: Allocator>(line: &mut Vec<u8, A>, head: &StatsHead<'_>) -> Result<(), AllocError>
    ensures { OnOk result (line.new.items ≡ line.old.items ++ head.now.user.now ++ codes " "
        ++ head.now.system.now ++ codes " (" ++ moment_text head.now.moment ++ codes ") ") }
{
    add_named(line, head.user, b" ")?;
    add_named(line, head.system, b" (")?;
    add_moment(line, &head.moment)?;
    line.extend_from_slice(b") ")
}

/// Returns the line of a file in the statistics: the user, the system, the moment at which the transfer ended, whether
/// it failed, its direction, the bytes, time and speed, and the port. It must be appended with one write.
pub fn stats_line<A: Allocator>(
    alloc: A,
    head: &StatsHead<'_>,
    course: Course,
    has_failed: bool,
    amount: Amount,
) -> Result<Vec<u8, A>, AllocError>
    ensures { IfOk result (λ line. line.items
        ≡ stats_line (shown_stats head.now) course has_failed amount.bytes amount.thousandths) }
{
    let mut line = Vec::new(alloc);
    add_file(&mut line, head)?;
    add_named(&mut line, failure_text(has_failed), course_text(course))?;
    add_amount(&mut line, amount)?;
    add_named(&mut line, b" on port ", head.port)?;
    line.push(b'\n')?;
    Ok(line)
}
