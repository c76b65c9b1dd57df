//! The program's tools and their arguments, declared for the parser of the command line.
ghost use Rattle.std.specs.Prelude.{◌≡◌, [], IfOk, codes};
ghost use Rattle.clap.specs.Words.{Shape, app_of};
ghost use Rattle.uug_cli.specs.Tools.{IsArg, IsTool, alone, answer_tool, call_tool, end_rules, every_rule, excluding, file_rule, file_rules, flag_rule, folder_rule, name_rule, number_rule, optional_rule, pair_tool, path_rule, play_tool, program, queue_tool, scan_tool, status_tool, talk_rules, tool, uucpair, verbose_rule, with_arguments, word_rule};

use crate::help;
use clap::{Arg, ArgAction, Command, value_parser};
use std::alloc::{AllocError, Global};

/// The version of the program, which `--version` prints.
pub const VERSION: &str = "0.1.0";

/// The default window of an end, in packets, and its default timeout, in seconds.
const WINDOW: &str = "7";

const SECONDS: &str = "10";

/// The default maximum total size of the files that an end offers in a session, in bytes.
const MOST: &str = "67108864";

/// The default maximum size of a file that an end gives or takes, in bytes.
const FILE_LIMIT: &str = "67108864";

/// The default number of days for which an end keeps a partial file.
const KEEP_DAYS: &str = "30";

/// The default number of sessions of a called end.
const SESSIONS: &str = "1";

/// The default folder of the lock files of devices: that of Debian's programs.
const LOCKS: &str = "/var/lock";

/// The default list of open folders: the public folder of a spool.
const HOME: &str = "~";

/// Returns the program with its tools and their arguments.
pub fn command<'a>(alloc: Global) -> Result<Command<'a>, AllocError>
    ensures { IfOk result (λ made. app_of made ≡ uucpair) }
{
    program(alloc)
        .subcommand(scan_command(alloc)?)?
        .subcommand(play_command(alloc)?)?
        .subcommand(pair_command(alloc)?)?
        .subcommand(call_command(alloc)?)?
        .subcommand(answer_command(alloc)?)?
        .subcommand(queue_command(alloc)?)?
        .subcommand(status_command(alloc)?)
}

/// Returns the program without its tools.
fn program<'a>(alloc: Global) -> Command<'a>
    ensures { app_of result ≡ alone program }
{
    Command::new(alloc, "uucpair")
        .about("Tools for the 'g' packet protocol of UUCP")
        .version(VERSION)
        .subcommand_required(true)
}

/// Returns a tool without its arguments.
fn tool<'a>(alloc: Global, name: &'a str, about: &'a str, help: &'a str) -> Command<'a>
    ensures { IsTool (tool name.entry.now []) result }
{
    Command::new(alloc, name).about(about).after_help(help)
}

/// Returns the tool that lists packets.
fn scan_command<'a>(alloc: Global) -> Result<Command<'a>, AllocError>
    ensures { IfOk result (IsTool scan_tool) }
{
    tool(
        alloc,
        "scan",
        "Reads bytes and lists the packets in them",
        help::SCAN,
    )
    .arg(file(alloc, "The file to read; by default standard input"))?
    .arg(verbose(
        alloc,
        "Says where each packet is, and lists texts, noise and damaged packets",
    ))
}

/// Returns the tool that plays a script.
fn play_command<'a>(alloc: Global) -> Result<Command<'a>, AllocError>
    ensures { IfOk result (IsTool play_tool) }
{
    tool(
        alloc,
        "play",
        "Reads a script of two ends and a noisy line, plays it and reports what they did",
        help::PLAY,
    )
    .arg(file(alloc, "The script to read; by default standard input"))?
    .arg(verbose(
        alloc,
        "Says why jobs are not done, and what is wrong with a script or a file",
    ))?
    .arg(flag(
        alloc,
        "settle",
        "Goes on to the end over a clean line if possible, and reports that too",
    )
    .conflicts_with("verbose")?)?
    .arg(ladder(alloc)?)
}

/// Returns the option that asks for a ladder.
fn ladder<'a>(alloc: Global) -> Result<Arg<'a>, AllocError>
    ensures { IfOk result (IsArg (excluding (flag_rule (codes "ladder")))) }
{
    let help = "Draws after the report what each end sent and what became of it";
    flag(alloc, "ladder", help)
        .conflicts_with("verbose")?
        .conflicts_with("settle")
}

/// Returns the tool that moves files between two folders.
fn pair_command<'a>(alloc: Global) -> Result<Command<'a>, AllocError>
    ensures { IfOk result (IsTool pair_tool) }
{
    tool(
        alloc,
        "pair",
        "Moves files between two folders, by two ends over a Unix socket",
        help::PAIR,
    )
    .arg(path(
        alloc,
        "SOCKET",
        "Where to make the socket; nothing may be there",
    ))?
    .arg(path(alloc, "DIR_A", "The folder of the caller"))?
    .arg(path(alloc, "DIR_B", "The folder of the called end"))?
    .arg(every(alloc, "drop-every", "Loses every Nth packet"))?
    .arg(every(alloc, "flip-every", "Changes every Nth packet"))?
    .arg(verbose(alloc, help::WHY))
}

/// Returns the tool that runs a calling end at a line.
fn call_command<'a>(alloc: Global) -> Result<Command<'a>, AllocError>
    ensures { IfOk result (IsTool call_tool) }
{
    let command = end_command(
        alloc,
        "call",
        "Calls another system over a line, and exchanges files with it",
    )?
    .arg(end_name(alloc, "peer", help::PEER))?;
    with_files(alloc, with_talk(alloc, command)?)?.arg(flag(
        alloc,
        "fail-status",
        help::FAIL_STATUS,
    ))
}

/// Returns the tool that runs a called end at a line.
fn answer_command<'a>(alloc: Global) -> Result<Command<'a>, AllocError>
    ensures { IfOk result (IsTool answer_tool) }
{
    let command = end_command(
        alloc,
        "answer",
        "Waits for another system to call over a line, and exchanges files with it",
    )?
    .arg(named(alloc, "peer", "NAME", help::PEER_OR_ANY))?;
    with_files(alloc, with_talk(alloc, command)?)?
        .arg(whole(alloc, "wait", "SECONDS", help::WAIT))?
        .arg(number(alloc, "sessions", "N", help::SESSIONS, SESSIONS))
}

/// Returns the tool that runs one end at a line, with the arguments for its line, its folder and its name.
fn end_command<'a>(alloc: Global, name: &'a str, about: &'a str) -> Result<Command<'a>, AllocError>
    ensures { IfOk result (IsTool (tool name.entry.now end_rules)) }
{
    tool(alloc, name, about, help::END)
        .arg(path(alloc, "LINE", help::LINE))?
        .arg(path(alloc, "DIR", "The folder of this end"))?
        .arg(end_name(alloc, "me", "The name of this end"))
}

/// Returns this tool with the options for how an end talks.
fn with_talk<'a>(alloc: Global, command: Command<'a>) -> Result<Command<'a>, AllocError>
    ensures { (before : Shape) → IsTool before command.entry
        → IfOk result (IsTool (with_arguments before talk_rules)) }
{
    command
        .arg(number(alloc, "window", "W", help::WINDOW, WINDOW))?
        .arg(whole(alloc, "size", "S", help::SIZE))?
        .arg(number(alloc, "timeout", "SECONDS", help::TIMEOUT, SECONDS))?
        .arg(whole(alloc, "speed", "BPS", help::SPEED))?
        .arg(flag(
            alloc,
            "no-quiet",
            "Answers each data packet that comes out of order",
        ))?
        .arg(flag(
            alloc,
            "fill-commands",
            "Pads the last packet of each command with zeros",
        ))?
        .arg(flag(
            alloc,
            "strict",
            "Ends the session at what it can't read, instead of refusing it",
        ))?
        .arg(flag(
            alloc,
            "no-digest",
            "Sends no digests of its files, and compares none",
        ))?
        .arg(flag(alloc, "no-resume", "Starts interrupted files over"))?
        .arg(flag(
            alloc,
            "every-ack",
            "Acknowledges each data packet on its own, even if several come at once",
        ))
}

/// Returns this tool with the options for the files of an end, its reports and its spool.
fn with_files<'a>(alloc: Global, command: Command<'a>) -> Result<Command<'a>, AllocError>
    ensures { (before : Shape) → IsTool before command.entry
        → IfOk result (IsTool (with_arguments before file_rules)) }
{
    command
        .arg(flag(
            alloc,
            "number",
            "Counts its conversations in DIR/number, from 0",
        ))?
        .arg(folder(alloc, "locks", help::LOCKS, LOCKS))?
        .arg(named(alloc, "report", "FILE", help::REPORT))?
        .arg(named(alloc, "log", "FILE", help::LOG))?
        .arg(number(alloc, "most", "BYTES", help::MOST, MOST))?
        .arg(number(alloc, "file-limit", "BYTES", help::FILE_LIMIT, FILE_LIMIT))?
        .arg(number(
            alloc,
            "keep-partials",
            "DAYS",
            help::KEEP_PARTIALS,
            KEEP_DAYS,
        ))?
        .arg(flag(alloc, "spool", help::SPOOL))?
        .arg(named(alloc, "public", "FOLDER", help::PUBLIC))?
        .arg(named(alloc, "stats", "FILE", help::STATS))?
        .arg(named(alloc, "grade", "G", help::GRADE))?
        .arg(named(alloc, "port-name", "NAME", help::PORT))?
        .arg(folder(alloc, "give", help::GIVE, HOME))?
        .arg(folder(alloc, "take", help::TAKE, HOME))?
        .arg(verbose(
            alloc,
            "Says on standard error how each job goes, and what was lost on the line",
        ))
}

/// Returns the tool that queues jobs.
fn queue_command<'a>(alloc: Global) -> Result<Command<'a>, AllocError>
    ensures { IfOk result (IsTool queue_tool) }
{
    tool(
        alloc,
        "queue",
        "Queues a job in the folder of an end, cancels one, or lists those pending",
        help::QUEUE,
    )
    .arg(path(alloc, "DIR", "The folder of the end"))?
    .arg(optional(
        alloc,
        "ORDER",
        "send or request; without it the pending jobs are listed",
    ))?
    .arg(optional(
        alloc,
        "FILE",
        "The path of the file to send, or the name of the file to ask for",
    ))?
    .arg(optional(
        alloc,
        "TARGET",
        "The file's name at the receiving end; by default its own",
    ))?
    .arg(named(alloc, "user", "USER", help::USER))?
    .arg(named(alloc, "cancel", "JOB", help::CANCEL))
}

/// Returns the tool that shows the status of a folder, or of a system's part of a spool.
fn status_command<'a>(alloc: Global) -> Result<Command<'a>, AllocError>
    ensures { IfOk result (IsTool status_tool) }
{
    tool(
        alloc,
        "status",
        "Shows the pending jobs in the folder of an end, its held files, and its failed jobs",
        help::STATUS,
    )
    .arg(path(alloc, "DIR", "The folder of the end, or a spool"))?
    .arg(named(alloc, "log", "FILE", help::LOG_OF))?
    .arg(flag(alloc, "json", "Prints one JSON object"))?
    .arg(flag(alloc, "spool", help::SPOOL_OF))?
    .arg(named(alloc, "peer", "NAME", help::PEER_OF))?
    .arg(folder(alloc, "locks", help::LOCKS_OF, LOCKS))
}

/// Returns the optional argument `FILE`.
fn file<'a>(alloc: Global, help: &'a str) -> Arg<'a>
    ensures { IsArg file_rule result }
{
    optional(alloc, "FILE", help)
}

/// Returns an argument that may be left out.
fn optional<'a>(alloc: Global, name: &'a str, help: &'a str) -> Arg<'a>
    ensures { IsArg (optional_rule name.entry.now) result }
{
    Arg::new(alloc, name).action(ArgAction::Set).help(help)
}

/// Returns an argument that is required.
fn path<'a>(alloc: Global, name: &'a str, help: &'a str) -> Arg<'a>
    ensures { IsArg (path_rule name.entry.now) result }
{
    Arg::new(alloc, name)
        .required(true)
        .action(ArgAction::Set)
        .help(help)
}

/// Returns an option without a value.
fn flag<'a>(alloc: Global, name: &'a str, help: &'a str) -> Arg<'a>
    ensures { IsArg (flag_rule name.entry.now) result }
{
    Arg::new(alloc, name)
        .long(name)
        .action(ArgAction::SetTrue)
        .help(help)
}

/// Returns the option that asks for more messages.
fn verbose<'a>(alloc: Global, help: &'a str) -> Arg<'a>
    ensures { IsArg verbose_rule result }
{
    flag(alloc, "verbose", help).short('v')
}

/// Returns an option that takes a number N, without a default.
fn every<'a>(alloc: Global, name: &'a str, help: &'a str) -> Arg<'a>
    ensures { IsArg (every_rule name.entry.now) result }
{
    whole(alloc, name, "N", help)
}

/// Returns an option that takes a number, without a default. The help shows the number as `value`.
fn whole<'a>(alloc: Global, name: &'a str, value: &'a str, help: &'a str) -> Arg<'a>
    ensures { IsArg (every_rule name.entry.now) result }
{
    named(alloc, name, value, help).value_parser(value_parser!(u32))
}

/// Returns an option that takes a word. The help shows the word as `value`.
fn named<'a>(alloc: Global, name: &'a str, value: &'a str, help: &'a str) -> Arg<'a>
    ensures { IsArg (word_rule name.entry.now) result }
{
    Arg::new(alloc, name)
        .long(name)
        .value_name(value)
        .action(ArgAction::Set)
        .help(help)
}

/// Returns an option that takes a folder, with this default.
fn folder<'a>(alloc: Global, name: &'a str, help: &'a str, default: &'a str) -> Arg<'a>
    ensures { IsArg (folder_rule name.entry.now default.entry.now) result }
{
    named(alloc, name, "FOLDER", help).default_value(default)
}

/// Returns a required option that takes a name.
fn end_name<'a>(alloc: Global, id: &'a str, help: &'a str) -> Arg<'a>
    ensures { IsArg (name_rule id.entry.now) result }
{
    named(alloc, id, "NAME", help).required(true)
}

/// Returns an option that takes a number, with this default.
fn number<'a>(
    alloc: Global,
    name: &'a str,
    value: &'a str,
    help: &'a str,
    default: &'a str,
) -> Arg<'a>
    ensures { IsArg (number_rule name.entry.now default.entry.now) result }
{
    whole(alloc, name, value, help).default_value(default)
}
