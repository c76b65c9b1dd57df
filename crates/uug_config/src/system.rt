//! The system under an end.

use std::fs::File;
use std::net::{Net, TcpListener, TcpStream};
use std::rt::{Env, Files};
use std::time::Clock;

/// The parts of the system that an end needs: files, the network, the clock, the environment, standard error and
/// memory.
pub trait System: Files<File = File>
    + Net<Stream = TcpStream, Listener = TcpListener>
    + Clock
    + Env
    + Eprint
    + AllocGlobal
    + Clone
    + Drop {}

impl<
    R: Files<File = File>
        + Net<Stream = TcpStream, Listener = TcpListener>
        + Clock
        + Env
        + Eprint
        + AllocGlobal
        + Clone
        + Drop,
> System for R {}
