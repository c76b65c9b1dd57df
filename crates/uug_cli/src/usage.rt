//! The remarks on bad usage.
ghost use Rattle.std.specs.Prelude.{◌≡◌, ◌++◌, IfOk, OnOk, is_some, string_bytes};
ghost use Rattle.uug_cli.specs.UsageWords.{IsUsageOf, is_port, lack_words, line_words, name_words, pair_words, part_words, peer_words, place_words, range_words, spool_words, status_words, system_words};
ghost use Rattle.uug_transfer.specs.FaultInjection.{is_in_range};
ghost use Rattle.uug_transfer.specs.LineNames.{port_of};

use crate::part::{Part, wrong_part};
use crate::spool_options::{lacks_spool, spool_option};
use std::alloc::{AllocError, Allocator};
use uug_config::{CallTask, has_place};
use uug_error_text::add_escaped;
use uug_io_pending::StatusTask;
use uug_talk::Name;
use uug_transfer::{EVERY_MAX, EVERY_MIN};

/// Returns the first thing that is wrong with the task of one end. If nothing is, returns which option is given without
/// the spool that it needs, if one is.
pub fn usage_remark<A: Allocator>(alloc: A, task: &CallTask<'_>) -> Result<String<A>, AllocError>
    ensures { IfOk result (λ remark. IsUsageOf task.now (string_bytes remark)) }
{
    match wrong_part(task) {
        Some(part) => {
            let mut remark = String::new(alloc);
            add_part(&mut remark, task, part)?;
            Ok(remark)
        }
        None => {
            let mut remark = String::new(alloc);
            add_spool_lack(&mut remark, task)?;
            Ok(remark)
        }
    }
}

/// Appends which option of a task is given without the spool that it needs, if one is.
fn add_spool_lack<A: Allocator>(text: &mut String<A>, task: &CallTask<'_>) -> Result<(), AllocError>
    ensures { OnOk result
        (string_bytes text.new ≡ string_bytes text.old ++ spool_words task.now) }
{
    if lacks_spool(task) {
        let option = spool_option(&task.spool);
        write!(
            text,
            "{option} is for a spool: give --spool too, or leave it out"
        )
    } else {
        Ok(())
    }
}

/// Returns which N is out of range: that of the packets to lose, or of those to change. If neither is, returns that
/// both folders are the same.
pub fn pair_remark<A: Allocator>(
    alloc: A,
    drop_every: Option<u32>,
    flip_every: Option<u32>,
) -> Result<String<A>, AllocError>
    ensures { IfOk result (λ remark. string_bytes remark ≡ pair_words drop_every flip_every) }
{
    let mut remark = String::new(alloc);
    add_every(&mut remark, drop_every, flip_every)?;
    Ok(remark)
}

/// Returns what is wrong with the words that ask for a status: a spool and the name of a system in it need each other.
/// The text is empty if nothing is wrong.
pub fn status_remark<A: Allocator>(alloc: A, task: &StatusTask<'_>) -> Result<String<A>, AllocError>
    ensures { IfOk result (λ remark. string_bytes remark
        ≡ status_words task.now.is_spool task.now.peer) }
{
    let mut remark = String::new(alloc);
    add_status(&mut remark, task)?;
    Ok(remark)
}

/// Appends what is wrong with the spool and the system of a status.
fn add_status<A: Allocator>(text: &mut String<A>, task: &StatusTask<'_>) -> Result<(), AllocError>
    ensures { OnOk result (string_bytes text.new
        ≡ string_bytes text.old ++ status_words task.now.is_spool task.now.peer) }
{
    match (task.is_spool, task.peer) {
        (false, None) => Ok(()),
        (false, Some(_)) => text.push_str("--peer names a system of a spool: add --spool"),
        (true, None) => add_peer(text, ""),
        (true, Some(peer)) => add_system(text, peer),
    }
}

/// Appends what is wrong with the name of a system in a spool, if anything is.
fn add_system<A: Allocator>(text: &mut String<A>, name: &str) -> Result<(), AllocError>
    ensures { OnOk result
        (string_bytes text.new ≡ string_bytes text.old ++ system_words name.now) }
{
    match Name::new(name.as_bytes()) {
        Ok(system) if has_place(true, &system) => Ok(()),
        Ok(_) => add_place(text, name),
        Err(_) => add_peer(text, name),
    }
}

/// Appends which N is out of range, or else that both folders are the same.
fn add_every<A: Allocator>(
    text: &mut String<A>,
    drop_every: Option<u32>,
    flip_every: Option<u32>,
) -> Result<(), AllocError>
    ensures { OnOk result (string_bytes text.new
        ≡ string_bytes text.old ++ pair_words drop_every flip_every) }
{
    if !is_in_range(drop_every) {
        add_range(text, "drop-every", drop_every, "2 to 1000000")
    } else if !is_in_range(flip_every) {
        add_range(text, "flip-every", flip_every, "2 to 1000000")
    } else {
        text.push_str("DIR_A and DIR_B are one folder: give each end its own")
    }
}

/// Returns whether this N is in range, or there is none.
fn is_in_range(every: Option<u32>) -> bool
    ensures { result ≡ is_in_range every }
{
    match every {
        Some(n) => n >= EVERY_MIN && n <= EVERY_MAX,
        None => true,
    }
}

/// Appends what is wrong with this part of a task.
fn add_part<A: Allocator>(
    text: &mut String<A>,
    task: &CallTask<'_>,
    part: Part,
) -> Result<(), AllocError>
    ensures { OnOk result
        (string_bytes text.new ≡ string_bytes text.old ++ part_words task.now part) }
{
    match part {
        Part::Seconds => add_range(text, "timeout", Some(task.line.seconds), "1 to 600"),
        Part::Speed => add_range(text, "speed", task.line.speed, "300 to 10000000"),
        Part::Wait => add_range(text, "wait", task.line.wait, "1 to 1000000000"),
        Part::Sessions => add_range(text, "sessions", Some(task.limits.sessions), "1 to 1000000"),
        Part::Window => add_range(text, "window", Some(task.settings.window), "1 to 7"),
        Part::Size => add_range(
            text,
            "size",
            Some(task.settings.size),
            "32, 64, 128, 256, 512, 1024, 2048 or 4096",
        ),
        Part::Most => add_range(text, "most", Some(task.limits.most), "1048576 or more"),
        Part::FileLimit => add_range(
            text,
            "file-limit",
            Some(task.limits.file_limit),
            "1 to 268435456",
        ),
        Part::KeepDays => add_range(
            text,
            "keep-partials",
            Some(task.limits.keep_days),
            "1 to 3650",
        ),
        Part::Line => add_line(text, task.line.name),
        Part::Me => add_name(text, task.me),
        Part::Peer => add_peer(text, task.peer),
        Part::Place => add_place(text, task.peer),
        Part::Turns => add_range(
            text,
            "sessions",
            Some(task.limits.sessions),
            "1: only a socket allows more",
        ),
    }
}

/// Appends that the number of this option is out of range.
fn add_range<A: Allocator>(
    text: &mut String<A>,
    option: &str,
    number: Option<u32>,
    range: &str,
) -> Result<(), AllocError>
    ensures { OnOk result (string_bytes text.new
        ≡ string_bytes text.old ++ range_words option.now number range.now) }
{
    match number {
        Some(number) => write!(text, "{option} {number} is not {range}"),
        None => Ok(()),
    }
}

/// Appends that this is not a valid name of a system.
fn add_name<A: Allocator>(text: &mut String<A>, name: &str) -> Result<(), AllocError>
    ensures { OnOk result
        (string_bytes text.new ≡ string_bytes text.old ++ name_words name.now) }
{
    text.push_str("\"")?;
    add_escaped(text, name.as_bytes())?;
    text.push_str("\" is not a system name: 1 to 200 printable characters without spaces")
}

/// Appends that the name of the other end is missing or invalid.
fn add_peer<A: Allocator>(text: &mut String<A>, name: &str) -> Result<(), AllocError>
    ensures { OnOk result
        (string_bytes text.new ≡ string_bytes text.old ++ peer_words name.now) }
{
    if name.is_empty() {
        text.push_str("the name of the other end is missing: --peer")
    } else {
        add_name(text, name)
    }
}

/// Appends that a system in a spool can't have this name.
fn add_place<A: Allocator>(text: &mut String<A>, name: &str) -> Result<(), AllocError>
    ensures { OnOk result
        (string_bytes text.new ≡ string_bytes text.old ++ place_words name.now) }
{
    text.push_str("\"")?;
    add_escaped(text, name.as_bytes())?;
    text.push_str("\" is not a system name for a spool: no slash, no leading dot")
}

/// Appends what is missing in the name of a line.
fn add_line<A: Allocator>(text: &mut String<A>, line: &str) -> Result<(), AllocError>
    ensures { OnOk result
        (string_bytes text.new ≡ string_bytes text.old ++ line_words line.now) }
{
    if line.is_empty() {
        return text.push_str("LINE is empty");
    }
    add_escaped(text, line.as_bytes())?;
    text.push_str(lack_words(line))
}

/// Returns what is missing in a line that is not a device.
fn lack_words(line: &str) -> &'static str
    ensures { result.now ≡ lack_words line.now }
{
    if line.as_bytes().starts_with(b"unix:") {
        " has no path"
    } else if is_port(line) {
        " has no host"
    } else {
        " has no port number (0 to 65535): give tcp:HOST:PORT"
    }
}

/// Returns whether the text after the last colon is a port.
fn is_port(line: &str) -> bool
    ensures { result ≡ is_port line.now }
{
    match line.rsplit_once(':') {
        Some(parts) => is_port_text(parts.1),
        None => false,
    }
}

/// Returns whether a text is a port.
fn is_port_text(text: &str) -> bool
    ensures { result ≡ is_some (port_of text.now) }
{
    text.parse::<u16>().is_ok()
}
