//! A socket with both ends in this program.
ghost use Rattle.std.specs.Prelude.{◌≡◌, IfErr, IfOk};
ghost use Rattle.uug_error.specs.Faults.{IsSystemFault};
ghost use Rattle.uug_transfer.specs.Turns.{HasRoom};

use crate::wire_line::WireLine;
use std::net::Net;
use std::os::unix::net::{UnixListener, UnixStream};
use std::rt::Files;
use std::{fs, io};
use uug_error::{Cause, Resource, RunFault, SystemFailure};
use uug_transfer::Line;

/// Opens a line over a socket that is created at this path. The path is removed once both ends are connected, or if
/// connecting them fails.
pub fn open_wire<R: Files + Net>(rt: &R, socket: &str) -> Result<WireLine<UnixStream>, RunFault>
    ensures room { IfOk result (λ line. HasRoom (⟦<WireLine<UnixStream> as Line>⟧.unread line)) }
    ensures calm { IfOk result (λ line. line.faults.count ≡ 0) }
    ensures no_other { IfErr result IsSystemFault }
{
    match join(rt, socket) {
        Ok(line) => Ok(line),
        Err(error) => {
            let cause = Cause::of(&error);
            Err(RunFault::System(SystemFailure::on(Resource::Line, cause)))
        }
    }
}

/// Opens the line as `open_wire` does, but returns the system's error.
fn join<R: Files + Net>(rt: &R, socket: &str) -> io::Result<WireLine<UnixStream>>
    ensures room { IfOk result (λ line. HasRoom (⟦<WireLine<UnixStream> as Line>⟧.unread line)) }
    ensures calm { IfOk result (λ line. line.faults.count ≡ 0) }
{
    let listener = UnixListener::bind(rt, socket)?;
    let line = meet(rt, &listener, socket);
    let _ = fs::remove_file(rt, socket);
    line
}

/// Connects to this listener, and returns the line over both ends of the connection.
fn meet<R: Net>(rt: &R, listener: &UnixListener, socket: &str) -> io::Result<WireLine<UnixStream>>
    ensures room { IfOk result (λ line. HasRoom (⟦<WireLine<UnixStream> as Line>⟧.unread line)) }
    ensures calm { IfOk result (λ line. line.faults.count ≡ 0) }
{
    let caller = UnixStream::connect(rt, socket)?;
    let (called, _) = listener.accept()?;
    Ok(WireLine::new(caller, called))
}
