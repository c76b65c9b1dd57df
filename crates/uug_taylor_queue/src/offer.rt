//! The jobs that a session offers for a line of a C. file.
ghost use Rattle.std.specs.Prelude.{◌≡◌};
ghost use Rattle.uug_talk.specs.Words.{words};
ghost use Rattle.uug_taylor_text.specs.CommandLines.{command_of};
ghost use Rattle.uug_taylor_text.specs.ShownCommands.{shown, shown_fields, shown_file};
ghost use Rattle.uug_taylor_queue.specs.Offers.{copied, copy_named, executed, named, named_by, offer_by, offer_of, requested, sending, sent, text_name, words_of};

use thiserror::Error;
use uug_session::Job;
use uug_talk::Name;
use uug_taylor_text::{
    Command, CommandFault, Fields, SentFile, execution_target, execution_temp, has_option,
    read_command,
};

/// The jobs of a line of a C. file.
#[derive(Clone, Copy, Debug, PartialEq, Eq)]
pub struct Offer {
    /// The name of the data, if it is a copy.
    pub copy: Option<Name>,
    /// The job. If the line runs a command, this job sends the data.
    pub first: Job,
    /// The job that sends the execution file, if the line runs a command.
    pub second: Option<Job>,
}

/// The reason why a session offers nothing for a line of a C. file.
#[derive(Clone, Copy, Debug, PartialEq, Eq, Error)]
pub enum NotOffered {
    /// The line is not a valid command.
    #[error("{0}")]
    Bad(CommandFault),
    /// The line asks the other system to expand a wildcard.
    #[error("a wildcard for the other system")]
    Wildcard,
    /// The names of the line are quoted: they may have bytes that no command of a session can have.
    #[error("quoted names")]
    Quoted,
    /// A name of the line is too long for a session, has bytes that no name of a session has, or is not the name of
    /// data where one is needed.
    #[error("a name that no session has")]
    Name,
    /// The data of the line is not a copy, and the path of its source is not absolute.
    #[error("a path that is not whole")]
    Relative,
}

/// The names that each job has.
#[derive(Clone, Copy)]
struct JobNames {
    source: Name,
    target: Name,
    user: Name,
}

/// Reads a word as a name.
fn named(word: &[u8]) -> Result<Name, NotOffered>
    ensures { result ≡ named word.now }
{
    match Name::new(word) {
        Ok(name) => Ok(name),
        Err(_) => Err(NotOffered::Name),
    }
}

fn named_by(name: Option<Name>) -> Result<Name, NotOffered>
    ensures { result ≡ named_by name }
{
    name.ok_or(NotOffered::Name)
}

fn words_of(fields: &Fields<'_>) -> Result<JobNames, NotOffered>
    ensures { result ≡ words_of (shown_fields fields.now) }
{
    if has_option(fields.options, b'q') {
        return Err(NotOffered::Quoted);
    }
    Ok(JobNames {
        source: named(fields.source)?,
        target: named(fields.target)?,
        user: named(fields.user)?,
    })
}

/// Returns the name of the copy, if the options say that the data is a copy. Otherwise the data is the file at the path
/// `source`, which must be absolute.
fn copied(options: &[u8], source: &[u8], temp: &[u8]) -> Result<Option<Name>, NotOffered>
    ensures { result ≡ copied options.now source.now temp.now }
{
    if has_option(options, b'C') {
        return copy_named(temp);
    }
    if source.starts_with(b"/") {
        Ok(None)
    } else {
        Err(NotOffered::Relative)
    }
}

fn copy_named(temp: &[u8]) -> Result<Option<Name>, NotOffered>
    ensures { result ≡ copy_named (named temp.now) }
{
    match named(temp) {
        Ok(temp) => Ok(Some(temp)),
        Err(why) => Err(why),
    }
}

fn sent(fields: &Fields<'_>, file: &SentFile<'_>) -> Result<Offer, NotOffered>
    ensures { result ≡ sent (shown_fields fields.now) (shown_file file.now) }
{
    let names = words_of(fields)?;
    let copy = copied(fields.options, fields.source, file.temp)?;
    Ok(sending(&names, &copy))
}

/// Makes the offer of one job, which sends a file.
fn sending(names: &JobNames, copy: &Option<Name>) -> Offer
    ensures { result ≡ sending names.now copy.now }
{
    Offer {
        copy: *copy,
        first: Job::Send {
            source: names.source,
            target: names.target,
            user: names.user,
            temp: *copy,
        },
        second: None,
    }
}

fn requested(fields: &Fields<'_>) -> Result<Offer, NotOffered>
    ensures { result ≡ requested (shown_fields fields.now) }
{
    let names = words_of(fields)?;
    Ok(Offer {
        copy: None,
        first: Job::Request {
            source: names.source,
            target: names.target,
            user: names.user,
        },
        second: None,
    })
}

/// Returns the local name of an execution file. It is derived from the name of the data's copy, or without a copy from
/// the data's name at the other system.
pub fn text_name(options: &[u8], target: &[u8], temp: &[u8]) -> Option<Name>
    ensures { result ≡ text_name options.now target.now temp.now }
{
    if has_option(options, b'C') {
        execution_temp(temp)
    } else {
        execution_temp(target)
    }
}

fn executed(fields: &Fields<'_>, file: &SentFile<'_>) -> Result<Offer, NotOffered>
    ensures { result ≡ executed (shown_fields fields.now) (shown_file file.now) }
{
    let data = sent(fields, file)?;
    let user = named(fields.user)?;
    let target = named_by(execution_target(fields.target))?;
    let temp = named_by(text_name(fields.options, fields.target, file.temp))?;
    Ok(Offer {
        copy: data.copy,
        first: data.first,
        second: Some(Job::Send {
            source: temp,
            target,
            user,
            temp: Some(temp),
        }),
    })
}

/// Returns the jobs that a session offers for a line of a C. file, without its line feed. A line that runs a command is
/// two jobs: one sends the data, the other the execution file. The names of the execution file are those of the data
/// with an `X`, and so the same at each try.
pub fn read_offer(line: &[u8]) -> Result<Offer, NotOffered>
    ensures exact { result ≡ offer_of line.now }
{
    match read_command(line) {
        Ok(command) => offer_by(&command),
        Err(fault) => Err(NotOffered::Bad(fault)),
    }
}

fn offer_by(command: &Command<'_>) -> Result<Offer, NotOffered>
    ensures { result ≡ offer_by (shown command.now) }
{
    match command {
        Command::Send(fields, file) => sent(fields, file),
        Command::Request(fields) => requested(fields),
        Command::Expand(_) => Err(NotOffered::Wildcard),
        Command::Execute(fields, file, _) => executed(fields, file),
    }
}
