//! The messages of a program that ends before its task is done, if there is memory for them.
ghost use Rattle.std.specs.Prelude.{◌≡◌, MatchResult, string_bytes};
ghost use Rattle.uug_cli_stop.specs.Stop.{NamesCopied, NamesFile, NamesFileFor, NamesFolder, SaysFault, is_much};

use crate::stop::Stop;
use std::alloc::{AllocError, Global};
use uug_error::{Cause, SystemFailure};
use uug_error_text::reason_line;
use uug_stream::ToolFault;

/// Returns the fault, without the reason.
pub(crate) fn says_fault(alloc: Global, fault: ToolFault) -> Stop
    ensures { SaysFault fault result }
{
    Stop::Told(fault, String::new(alloc))
}

/// Returns that a system call failed, with this line on it if there was memory for it.
pub(crate) fn says_reason(reason: Result<String, AllocError>) -> Stop
    ensures { MatchResult reason (λ line. result ≡ Stop.Told ToolFault.Device line)
        (λ _. result ≡ Stop.Fault ToolFault.Device) }
{
    match reason {
        Ok(line) => Stop::Told(ToolFault::Device, line),
        Err(_) => Stop::Fault(ToolFault::Device),
    }
}

/// Returns which limit the file of this name is over, or else that it can't be read, and why.
pub(crate) fn names_copied(alloc: Global, path: &str, failure: SystemFailure) -> Stop
    ensures { NamesCopied path.now failure result }
{
    if is_much(failure.cause) {
        says_limit(reason_line(alloc, path, "", "", "", failure))
    } else {
        names_file(alloc, path, failure)
    }
}

/// Returns whether the cause is that there is more than the program takes.
fn is_much(cause: Cause) -> bool
    ensures { result ≡ is_much cause }
{
    match cause {
        Cause::TooMuch => true,
        _ => false,
    }
}

/// Returns that something is over a limit, with this line on it, or a memory fault if there was no memory for the line.
fn says_limit(reason: Result<String, AllocError>) -> Stop
    ensures { MatchResult reason (λ line. result ≡ Stop.Limit line)
        (λ _. result ≡ Stop.Fault ToolFault.Memory) }
{
    match reason {
        Ok(line) => Stop::Limit(line),
        Err(_) => Stop::Fault(ToolFault::Memory),
    }
}

/// Returns that a number file has no number in it, with this line on it, or a memory fault if there was no memory for
/// the line.
pub(crate) fn says_number(reason: Result<String, AllocError>) -> Stop
    ensures { MatchResult reason (λ line. result ≡ Stop.Number line)
        (λ _. result ≡ Stop.Fault ToolFault.Memory) }
{
    match reason {
        Ok(line) => Stop::Number(line),
        Err(_) => Stop::Fault(ToolFault::Memory),
    }
}

/// Returns that the file of this name can't be read, and why, or a memory fault.
pub(crate) fn names_file(alloc: Global, path: &str, failure: SystemFailure) -> Stop
    ensures { NamesFile path.now failure result }
{
    match reason_line(alloc, path, "", "", "", failure) {
        Ok(reason) => names_file_for(alloc, path, reason),
        Err(_) => Stop::Fault(ToolFault::Memory),
    }
}

/// Does the same for this reason.
fn names_file_for(alloc: Global, path: &str, reason: String) -> Stop
    ensures { NamesFileFor path.now (string_bytes reason) result }
{
    match String::from_str(alloc, path) {
        Ok(name) => Stop::File(name, reason),
        Err(_) => Stop::Fault(ToolFault::Memory),
    }
}

/// Returns that another run holds the folder or the line of this name, with this remark, or a memory fault.
pub(crate) fn names_folder(alloc: Global, dir: &str, remark: String) -> Stop
    ensures { NamesFolder dir.now (string_bytes remark) result }
{
    match String::from_str(alloc, dir) {
        Ok(name) => Stop::InUse(name, remark),
        Err(_) => Stop::Fault(ToolFault::Memory),
    }
}

/// Returns what is wrong with the usage, if there was memory for it.
pub(crate) fn says_usage(remark: Result<String, AllocError>) -> Stop
    ensures { MatchResult remark (λ text. result ≡ Stop.Remarked ToolFault.Usage text)
        (λ _. result ≡ Stop.Fault ToolFault.Usage) }
{
    match remark {
        Ok(remark) => Stop::Remarked(ToolFault::Usage, remark),
        Err(_) => Stop::Fault(ToolFault::Usage),
    }
}
