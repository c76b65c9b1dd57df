//! The commands that lines of C. files run, and who is notified when one is given up.
ghost use Rattle.std.specs.Prelude.{◌≡◌};
ghost use Rattle.uug_taylor_text.specs.CommandLines.{command_of};
ghost use Rattle.uug_taylor_queue.specs.Executions.{addressee, execution_of, execution_with, is_told_with_data, requestor_at, requestor_in, requestor_of, user_of};

use crate::offer::{Offer, read_offer};
use uug_session::Job;
use uug_store::is_among;
use uug_talk::Name;
use uug_taylor_text::{Command, has_option, read_command};

/// The two jobs of a line that runs a command, and the user who asks for it, if the line names one.
#[derive(Clone, Copy, Debug, PartialEq, Eq)]
pub struct Execution {
    /// The job that sends the data.
    pub input: Job,
    /// The job that sends the execution file.
    pub text: Job,
    /// The user who asks for the command.
    pub requestor: Option<Name>,
}

/// Reads the command of a line of a C. file, without its line feed. Returns `None` if the line runs no command, or no
/// session can offer it.
pub fn read_execution(line: &[u8]) -> Option<Execution>
    ensures exact { result ≡ execution_of line.now }
{
    match read_offer(line) {
        Ok(offer) => execution_with(&offer, requestor_in(line)),
        Err(_) => None,
    }
}

fn execution_with(offer: &Offer, requestor: Option<Name>) -> Option<Execution>
    ensures { result ≡ execution_with offer.now.first offer.now.second requestor }
{
    match &offer.second {
        Some(text) => Some(Execution {
            input: offer.first,
            text: *text,
            requestor,
        }),
        None => None,
    }
}

fn requestor_in(line: &[u8]) -> Option<Name>
    ensures { result ≡ requestor_in (command_of line.now) }
{
    match read_command(line) {
        Ok(Command::Execute(fields, file, _)) => requestor_of(fields.options, file.notify),
        _ => None,
    }
}

/// Returns the user who asks for a command: with option `R`, the one in NOTIFY. A field that begins with a dash names
/// nobody: the mailer would read it as an option.
fn requestor_of(options: &[u8], notify: &[u8]) -> Option<Name>
    ensures { result ≡ requestor_of options.now notify.now }
{
    if has_option(options, b'R') && !notify.starts_with(b"-") {
        Name::new(notify).ok()
    } else {
        None
    }
}

/// Returns the user that a job belongs to.
fn user_of(job: &Job) -> Name
    ensures { result ≡ user_of job.now }
{
    match job {
        Job::Send { user, .. } => *user,
        Job::Request { user, .. } => *user,
    }
}

/// Returns who asks for the first of these commands that has this job, if that is known.
fn requestor_at(executions: &[Execution], job: &Job) -> Option<Name>
    ensures { result ≡ requestor_at executions.now job.now }
{
    for execution in executions {
        if is_among(&[execution.input, execution.text], job) {
            return execution.requestor;
        }
    }
    None
}

/// Returns whom to notify that this job was given up: the user who asks for its command, if the line names one, or else
/// the user of the job.
pub fn addressee(executions: &[Execution], job: &Job) -> Name
    ensures { result ≡ addressee executions.now job.now }
{
    match requestor_at(executions, job) {
        Some(requestor) => requestor,
        None => user_of(job),
    }
}

/// Returns whether this job sends the execution file of a command whose data was given up too. The notice about the
/// data is enough.
pub fn is_told_with_data(executions: &[Execution], failed: &[Job], job: &Job) -> bool
    ensures { result ≡ is_told_with_data executions.now failed.now job.now }
{
    executions
        .iter()
        .any(|e| is_among(&[e.text], job) && is_among(failed, &e.input))
}
