//! The task that a command line asks for.
ghost use Rattle.std.specs.Prelude.{◌≡◌, IfErr, IfOk, codes, map, true};
ghost use Rattle.clap.specs.Words.{Text, kind_of, takes};
ghost use Rattle.clap.specs.declared.error.kind.ErrorKind.TheVariants.{OutOfMemory};
ghost use Rattle.uug_cli.specs.Asked.{AreLimitsIn, AreOutputsIn, AreSettingsIn, Asks, AsksIn, IsEndIn, IsFileIn, IsLineIn, IsPairIn, IsQueueIn, IsSpoolIn, IsStatusIn, IsToolName, IsWordIn, NamesScan, entries_of, is_given, number_in, peer_in, size_in, text_in, usual_size};
ghost use Rattle.uug_cli.specs.Tools.{uucpair};

use crate::tools::command;
use clap::error::ErrorKind;
use clap::{ArgMatches, Error};
use std::alloc::Global;
use std::convert::AsStr;
use uug_config::{
    ANY, CallTask, FolderRules, Limits, LineOptions, Outputs, SessionSettings, SpoolOptions,
};
use uug_conversation::Side;
use uug_io_disk::QueueTask;
use uug_io_pending::{CancelTask, StatusTask};

/// The default packet size of an end, in bytes. With smaller packets more corrupted bytes pass the checksum.
const SIZE: u32 = 1_024;

/// The default packet size on a line slower than `SLOW` bits a second, where a retransmission takes long.
const SIZE_SLOW: u32 = 256;

const SLOW: u32 = 1_200;

/// A task that the command line asks for.
#[derive(Clone, Copy, Debug, PartialEq, Eq)]
pub enum Task<'a> {
    /// The name of the program and its version, to standard output.
    Version,
    /// The listing of a file, or of standard input, to standard output.
    Scan(Option<&'a str>),
    /// The detailed listing of a file, or of standard input, to standard output.
    ScanVerbose(Option<&'a str>),
    /// The report of the script in a file, or on standard input, to standard output.
    Play(Option<&'a str>),
    /// The report of the script, and why jobs are not done or no report was written.
    PlayVerbose(Option<&'a str>),
    /// The report of the script, and a second one after the run has settled, or why it can't settle.
    PlaySettled(Option<&'a str>),
    /// The report of the script, and a ladder of its sessions after it.
    PlayDrawn(Option<&'a str>),
    /// Two ends over two folders, and a socket between them.
    Pair(PairTask<'a>),
    /// One end, its folder, and its line to the other end.
    Call(CallTask<'a>),
    /// A job to queue, or the list of jobs that wait.
    Queue(QueueTask<'a>),
    /// A job to cancel.
    Cancel(CancelTask<'a>),
    /// The status of a folder, or of a system's part of a spool.
    Status(StatusTask<'a>),
}

/// The task of two ends.
#[derive(Clone, Copy, Debug, PartialEq, Eq)]
pub struct PairTask<'a> {
    /// The path at which the socket is made.
    pub socket: &'a str,
    /// The folder of the caller.
    pub dir_a: &'a str,
    /// The folder of the called end.
    pub dir_b: &'a str,
    /// N, if every Nth packet is lost.
    pub drop_every: Option<u32>,
    /// N, if every Nth packet is changed.
    pub flip_every: Option<u32>,
    /// Set if the ends report why they gave up.
    pub is_loud: bool,
}

/// Returns the value of an argument, or an empty text if it has none.
fn text<'a>(matches: &ArgMatches<'a>, name: &str) -> &'a str
    ensures { result.now ≡ text_in (entries_of matches.now) name.now }
{
    matches.get_str(name).unwrap_or("")
}

/// Returns the value of `FILE`, if it is given.
fn file<'a>(matches: &ArgMatches<'a>) -> Option<&'a str>
    ensures { IsFileIn (entries_of matches.now) result }
{
    word(matches, "FILE")
}

/// Returns the value of an argument, if it has one.
fn word<'a>(matches: &ArgMatches<'a>, name: &str) -> Option<&'a str>
    ensures { IsWordIn (entries_of matches.now) name.now result }
{
    matches.get_str(name)
}

/// Returns whether an option without a value is given.
fn is_given(matches: &ArgMatches<'_>, name: &str) -> bool
    ensures { result ≡ is_given (entries_of matches.now) name.now }
{
    matches.get_one::<bool>(name).unwrap_or(false)
}

/// Returns the number of an option, if it has one.
fn number(matches: &ArgMatches<'_>, name: &str) -> Option<u32>
    ensures { result ≡ number_in (entries_of matches.now) name.now }
{
    matches.get_one::<u32>(name)
}

/// Returns the default packet size for a line of this speed in bits a second, if that is given.
fn usual_size(speed: Option<u32>) -> u32
    ensures { result ≡ usual_size speed }
{
    match speed {
        Some(speed) if speed < SLOW => SIZE_SLOW,
        _ => SIZE,
    }
}

/// Returns the packet size that an end announces.
fn size(matches: &ArgMatches<'_>) -> u32
    ensures { result ≡ size_in (entries_of matches.now) }
{
    match number(matches, "size") {
        Some(size) => size,
        None => usual_size(number(matches, "speed")),
    }
}

/// Returns the name of the other end, or an empty text if none is given. A called end over a spool needs none: it then
/// lets in any system that the spool knows.
fn peer<'a>(side: Side, matches: &ArgMatches<'a>) -> &'a str
    ensures { result.now ≡ peer_in side (entries_of matches.now) }
{
    match (side, word(matches, "peer")) {
        (_, Some(name)) => name,
        (Side::Called, None) if is_given(matches, "spool") => ANY,
        (_, None) => "",
    }
}

/// Returns the options of the line of one end.
fn line_options<'a>(matches: &ArgMatches<'a>) -> LineOptions<'a>
    ensures { IsLineIn (entries_of matches.now) result }
{
    LineOptions {
        name: text(matches, "LINE"),
        seconds: number(matches, "timeout").unwrap_or(0),
        speed: number(matches, "speed"),
        wait: number(matches, "wait"),
        locks: text(matches, "locks"),
    }
}

/// Returns the settings of the sessions of one end.
fn session_settings(matches: &ArgMatches<'_>) -> SessionSettings
    ensures { AreSettingsIn (entries_of matches.now) result }
{
    SessionSettings {
        window: number(matches, "window").unwrap_or(0),
        size: size(matches),
        is_quiet: !is_given(matches, "no-quiet"),
        is_short: !is_given(matches, "fill-commands"),
        is_lenient: !is_given(matches, "strict"),
        tells_digests: !is_given(matches, "no-digest"),
        is_resuming: !is_given(matches, "no-resume"),
        is_every_ack: is_given(matches, "every-ack"),
        is_numbered: is_given(matches, "number"),
    }
}

/// Returns the limits of one end.
fn limits(matches: &ArgMatches<'_>) -> Limits
    ensures { AreLimitsIn (entries_of matches.now) result }
{
    Limits {
        sessions: number(matches, "sessions").unwrap_or(1),
        most: number(matches, "most").unwrap_or(0),
        file_limit: number(matches, "file-limit").unwrap_or(0),
        keep_days: number(matches, "keep-partials").unwrap_or(0),
    }
}

/// Returns the outputs of one end.
fn outputs<'a>(matches: &ArgMatches<'a>) -> Outputs<'a>
    ensures { AreOutputsIn (entries_of matches.now) result }
{
    Outputs {
        is_loud: is_given(matches, "verbose"),
        report: word(matches, "report"),
        log: word(matches, "log"),
    }
}

/// Returns the options of one end that only a spool has.
fn spool_options<'a>(matches: &ArgMatches<'a>) -> SpoolOptions<'a>
    ensures { IsSpoolIn (entries_of matches.now) result }
{
    SpoolOptions {
        public: word(matches, "public"),
        stats: word(matches, "stats"),
        grade: word(matches, "grade"),
        port: word(matches, "port-name"),
        rules: FolderRules {
            gives: text(matches, "give"),
            takes: text(matches, "take"),
        },
    }
}

/// Returns the task of one end, from the words after `call` or `answer`. All of them are required, or have a default,
/// except the name of the other end. Without that name and without `--spool` a task may not be run.
fn end_task<'a>(side: Side, matches: &ArgMatches<'a>) -> CallTask<'a>
    ensures side { result.side ≡ side }
    ensures says { IsEndIn (entries_of matches.now) result }
{
    CallTask {
        side,
        dir: text(matches, "DIR"),
        me: text(matches, "me"),
        peer: peer(side, matches),
        line: line_options(matches),
        settings: session_settings(matches),
        limits: limits(matches),
        outputs: outputs(matches),
        is_spool: is_given(matches, "spool"),
        spool: spool_options(matches),
        is_fail_status: is_given(matches, "fail-status"),
    }
}

/// Returns the task of two ends, from the words after `pair`. The parser requires all three paths.
fn pair_task<'a>(matches: &ArgMatches<'a>) -> PairTask<'a>
    ensures { IsPairIn (entries_of matches.now) result }
{
    PairTask {
        socket: text(matches, "SOCKET"),
        dir_a: text(matches, "DIR_A"),
        dir_b: text(matches, "DIR_B"),
        drop_every: number(matches, "drop-every"),
        flip_every: number(matches, "flip-every"),
        is_loud: is_given(matches, "verbose"),
    }
}

/// Returns the task of `queue`, from the words after it.
fn queue_task<'a>(matches: &ArgMatches<'a>) -> Task<'a>
    ensures { AsksIn (codes "queue") (entries_of matches.now) result }
{
    match word(matches, "cancel") {
        Some(job) => Task::Cancel(CancelTask {
            dir: text(matches, "DIR"),
            job,
            order: word(matches, "ORDER"),
        }),
        None => Task::Queue(order_task(matches)),
    }
}

/// Returns the task of `queue` if no job is cancelled.
fn order_task<'a>(matches: &ArgMatches<'a>) -> QueueTask<'a>
    ensures { IsQueueIn (entries_of matches.now) result }
{
    let dir = text(matches, "DIR");
    QueueTask {
        dir,
        order: word(matches, "ORDER"),
        file: file(matches),
        target: word(matches, "TARGET"),
        user: word(matches, "user"),
    }
}

/// Returns the task of `status`, from the words after it.
fn status_task<'a>(matches: &ArgMatches<'a>) -> StatusTask<'a>
    ensures { IsStatusIn (entries_of matches.now) result }
{
    StatusTask {
        dir: text(matches, "DIR"),
        log: word(matches, "log"),
        is_json: is_given(matches, "json"),
        is_spool: is_given(matches, "spool"),
        peer: word(matches, "peer"),
        locks: text(matches, "locks"),
    }
}

/// Returns the task of `scan`.
fn scan_task<'a>(matches: &ArgMatches<'a>) -> Task<'a>
    ensures { (tool : Text) → NamesScan tool → AsksIn tool (entries_of matches.now) result }
{
    let file = file(matches);
    if is_given(matches, "verbose") {
        Task::ScanVerbose(file)
    } else {
        Task::Scan(file)
    }
}

/// Returns the task of `play`. The parser takes at most one of the three options.
fn play_task<'a>(matches: &ArgMatches<'a>) -> Task<'a>
    ensures { AsksIn (codes "play") (entries_of matches.now) result }
{
    let file = file(matches);
    if is_given(matches, "verbose") {
        Task::PlayVerbose(file)
    } else if is_given(matches, "settle") {
        Task::PlaySettled(file)
    } else if is_given(matches, "ladder") {
        Task::PlayDrawn(file)
    } else {
        Task::Play(file)
    }
}

/// Returns the task of this tool.
fn task_of_tool<'a>(tool: &str, matches: &ArgMatches<'a>) -> Task<'a>
    ensures { IsToolName tool.now → AsksIn tool.now (entries_of matches.now) result }
{
    match tool {
        "play" => play_task(matches),
        "pair" => Task::Pair(pair_task(matches)),
        "call" => Task::Call(end_task(Side::Caller, matches)),
        "answer" => Task::Call(end_task(Side::Called, matches)),
        "queue" => queue_task(matches),
        "status" => Task::Status(status_task(matches)),
        _ => scan_task(matches),
    }
}

/// Parses a command line, the program's name first, into the task that it asks for. The text of an error is the usage,
/// or the help if that was asked for.
pub fn task_of<'a, S: AsStr>(alloc: Global, words: &'a [S]) -> Result<Task<'a>, Error>
    ensures asks { IfOk result (Asks (map S.text words.entry.now)) }
    ensures refuses { IfErr result (λ error.
        takes uucpair (map S.text words.entry.now) ≡ true → kind_of error ≡ OutOfMemory) }
{
    let matches = match command(alloc)?.try_get_matches_from(words) {
        Ok(matches) => matches,
        Err(error) => {
            return match error.kind() {
                ErrorKind::DisplayVersion => Ok(Task::Version),
                _ => Err(error),
            };
        }
    };
    match matches.subcommand() {
        Some((tool, matches)) => Ok(task_of_tool(tool, matches)),
        None => unreachable!(),
    }
}
