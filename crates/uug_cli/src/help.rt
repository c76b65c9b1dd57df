//! The help of each tool: the text after its usage, and the texts of options.

pub const SCAN: &str = "A line for each packet, and a last one:
  INITA N, INITC N  the largest window that the other end may use
  INITB SIZE        the packet size that it is to use
  RR N              all packets up to N were received
  RJ N              the same, and those after N are to be sent again
  SRJ N             packet N is to be sent again
  CLOSE             the link is shut down
  DATA N ACK N SIZE N VALID N
                    a data packet: its number, the number that it acknowledges,
                    the size of its field, and how many of its bytes are valid
  BAD               a data packet with a wrong checksum or a bad length
  REST N            the end: the last N bytes may begin a packet

With -v each line ends with AT N LENGTH N: the place of its first byte, from 0, and the
number of its bytes. BAD is followed by what is wrong, and there are more lines:
  BAD checksum, BAD length
                    the first byte of such a data packet
  CONTROL BAD checksum
                    the first byte of a control packet with a wrong checksum
  TEXT WORDS        a handshake text, its unprintable bytes and backslashes as \\x0d
  NOISE N           N bytes that are none of these

Status: 0 done, 2 bad usage, 3 a device fault, 4 out of memory

Example:
  printf '\\020\\011\\157\\252\\073\\367' | uucpair scan
prints
  INITA 3
  REST 0";

pub const PLAY: &str =
    "The lines of a script, where SIDE is caller or called, and HEX is two digits a byte, or -:
  caller NAME WINDOW SIZE  the calling end, its window (1 to 7) and its packet
                           size (32, 64, and so on up to 4096)
  called NAME WINDOW SIZE  the called end
  file SIDE NAME MODE HEX  a file that the end can send
  send SIDE SOURCE TARGET USER [TEMP]
                           a job: the end sends a file
  request SIDE SOURCE TARGET USER
                           a job: the end asks for a file
  deny SIDE NAME           the end refuses a file sent under this name,
  later SIDE NAME          puts it off,
  immovable SIDE NAME      or can't put it in its place
  number SIDE N            the end's count of conversations (0 to 4294967295); a
                           called end that has one admits only a caller with the same
  quiet SIDE               the end is quiet on repeats: it does not answer each data
                           packet that arrives out of order
  short SIDE               the end's commands are short: their last packet ends with
                           the zero byte, instead of zeros up to the packet size
  lenient SIDE             the end refuses what it can't read, and goes on
  digest SIDE              the end sends digests of its files, and compares those
                           that it receives
  resume SIDE              the same, and it asks for the rest of an interrupted file
  pass SIDE N              the next N bytes on the way to the side arrive
  drop SIDE N              they are lost
  flip SIDE HH             the bits HH of the next byte are inverted
  insert SIDE HH           the byte HH is inserted before the next one
  timeout SIDE             the side has heard nothing for some time
  hangup SIDE              the side has lost the line
  call                     both ends hang up, and a new session begins
  flow N                   N times, all bytes arrive, first at the called end
Empty lines and lines that begin with # are skipped.

With -v lines on standard error say, after the report, why jobs are not done; or what is
wrong with a bad line of the script; or why a file can't be read.
With --settle the run goes on after the script, on a line that loses nothing more, and a
second report follows, which decides the status. This is possible if no end was fooled,
both ends are talking, neither is quiet on repeats or has timed out more than 6 times in a
row, and nothing waits at an end or on the line; otherwise a line says what prevents it.
With --ladder a ladder of each session follows the report: a line for each packet or text,
in the order sent, with the number of its event, and an arrow to the other end, which
ends in x if it was lost or damaged.

Status: 0 the last session is done at both ends, 1 it is not, 2 bad usage or a bad
script, 3 a device fault, 4 out of memory, 5 the line fooled an end

Example:
  printf 'caller a 2 32\\ncalled b 2 32\\nflow 20\\n' | uucpair play
prints
  session 1
  caller sent 2 taken 1 most 1 done
  called sent 1 taken 2 most 1 done
  caller pending 0 struck 0 failed 0
  called pending 0 struck 0 failed 0
  verdict clean";

pub const PAIR: &str = "In each folder:
  jobs  the jobs of the end, a line each: send SOURCE TARGET USER
        or request SOURCE TARGET USER
  send  the folder of the files that it can send
  got   the folder of the files that it receives
N is from 2 to 1000000; packets are counted over both directions.

Status: 0 both sessions are done, 1 one is not, 2 bad usage or bad jobs, 3 a device
fault, 4 out of memory

Example:
  mkdir -p a/send b/got && echo hello > a/send/x && echo 'send x y me' > a/jobs
  uucpair pair line a b --drop-every 7
prints
  caller done pending 0 struck 1 failed 0
  called done pending 0 struck 0 failed 0
and b/got/y is the file.";

pub const END: &str = "LINE is
  -              standard input and output: a socket, pipes or a terminal
  unix:PATH      a Unix socket: call connects to it; answer makes it, and removes it
                 when its last caller has been admitted
  tcp:HOST:PORT  the same over TCP; tcp:PORT is on this machine
  PATH           a terminal device, already raw and at its speed (stty); it is locked,
                 also by the file LCK..NAME that uucico and cu heed
DIR is a folder like those of pair: jobs, send and got. A target may also be ~/NAME or
/NAME, which mean NAME in got.
If DIR has a file named number, this end counts its conversations there; --number makes
one that begins at 0. A called end that keeps a count admits only a caller with the same
one, so begin at both ends at once.

Status: 0 the session is done, 1 it is not, 2 bad usage, bad jobs or a bad number file,
3 a device fault, 4 out of memory

Example:
  mkdir -p b/got && uucpair answer unix:line b --me beta --peer alpha &
  mkdir -p a/send a/got && echo hello > a/send/x && echo 'send x ~/y me' > a/jobs
  uucpair call unix:line a --me alpha --peer beta
prints
  caller done pending 0 struck 1 failed 0
and b/got/y is the file.";

pub const QUEUE: &str =
    "send copies FILE into DIR/send, under its own name or one with a number, and appends a job
for the copy to DIR/jobs. request appends a job that asks the other end for FILE. Nobody
has to edit jobs, and both work during a session. A line says which job was queued.
Without an order the pending jobs are listed, a line each. --cancel removes one of these,
with its copy, while no session runs over DIR.

Status: 0 done, 1 no such job waits, 2 bad usage or bad jobs, 3 a device fault, 4 out of
memory

Example:
  mkdir -p a/send && echo hello > x && uucpair queue a send x y --user me
prints
  queued send x y me";

pub const STATUS: &str = "This changes nothing, and works during a session. The lines are:
  P pending, H held, F failed
                    how many there are of each
  session not over: its mark is there, AGE old
                    a session with a log is running, or was broken off
  session SYSTEM DATE TIME: TEXT
                    with --log: the start of the last session there, with its line, and
                    how it ended
  pending JOB: N bytes, AGE old
                    a pending job, with its file; or its file is missing
  held NAME: N of M bytes, AGE old
                    the part that has arrived of an interrupted file
  failed JOB: WHY   a job that was given up
Unprintable bytes are \\xNN. --json prints the same as one object, with null for what is not
known, and ages in seconds. With --spool the jobs are the lines of the C. files for
--peer; failed jobs are not there, as their users have mail.

Status: 0 done, 2 bad usage or bad jobs, 3 a device fault, 4 out of memory

Example:
  mkdir -p a/send && echo hello > x && uucpair queue a send x y --user me
  uucpair status a
prints
  1 pending, 0 held, 0 failed
  pending send x y me: 6 bytes, 0 s old";

pub const LOG_OF: &str = "The log of the end; its last session is shown";

pub const SPOOL_OF: &str = "DIR is a spool of Taylor UUCP; the part of the system --peer is shown";

pub const PEER_OF: &str = "With --spool: the name of the system";

pub const LOCKS_OF: &str =
    "With --spool: the folder of the lock files, which include a session's mark";

pub const WHY: &str = "Says why it gave up, and at a terminal how each job goes";

pub const USER: &str = "Who queues it; by default USER, LOGNAME or uucp";

pub const CANCEL: &str = "Cancels the job with this number in the list, from 1, or this line";

pub const PEER: &str = "The name of the other end";

pub const PEER_OR_ANY: &str =
    "The name of the other end; if left out with --spool, any system with a folder in the spool may call";

pub const LINE: &str = "-, unix:PATH, tcp:HOST:PORT, or the path of a terminal device";

pub const REPORT: &str =
    "Writes the report to this file; by default to standard output, with LINE - to standard error";

pub const LOG: &str =
    "Appends a line for each session and each job to this file, as Taylor UUCP does; uulog reads it";

pub const WINDOW: &str = "The window that the other end is to use, 1 to 7";

pub const SIZE: &str =
    "The packet size that the other end is to use, 32 to 4096; by default 1024, or 256 if --speed is below 1200";

pub const TIMEOUT: &str = "Time to wait for a byte, 1 to 600";

pub const SPEED: &str =
    "The speed of the line in bits a second, 300 to 10000000: the timer allows for bytes in transit";

pub const WAIT: &str =
    "How long to wait for a call, 1 to 1000000000; at a terminal device for the first byte";

pub const SESSIONS: &str = "Maximum sessions at a socket, one after the other, 1 to 1000000";

pub const LOCKS: &str = "The folder of the lock files of terminal devices";

pub const MOST: &str =
    "Maximum total size of the files offered in a session; the rest wait for the next";

pub const FILE_LIMIT: &str = "Maximum size of a file that it sends or receives";

pub const KEEP_PARTIALS: &str = "Days to keep a partial file that no longer grows";

pub const SPOOL: &str = "DIR is a spool of Taylor UUCP, where this end takes uucico's place";

pub const PUBLIC: &str = "With --spool: the public folder; by default uucppublic beside DIR";

pub const GRADE: &str =
    "With --spool: offers only jobs of this grade, 0 to 9, A to Z or a to z, or higher; - offers none";

pub const PORT: &str = "With --spool: the name of the line in the log; by default LINE";

pub const GIVE: &str =
    "With --spool: the folders whose files it gives: ~ is the public one, ~/PATH one below it, /PATH one elsewhere, and a leading ! bars one; the last that holds a file decides; none gives nothing";

pub const TAKE: &str =
    "With --spool: the folders that accept files it did not ask for, in the same way";

pub const FAIL_STATUS: &str = "Ends with status 1 if a job was given up in the session";

pub const STATS: &str = "With --spool: appends a line to this file for each file transferred";
