//! The lines of an end on an operating system: sockets that call or listen, terminal devices, the program's standard
//! streams, and the socket between two ends.
#![tactic(auto)]

mod deadline;
mod device_port;
mod flight;
mod in_time;
mod listening;
mod polled_stream;
mod port;
mod port_line;
mod report_file;
mod silent_port;
mod sockets;
mod standard_port;
mod standard_streams;
mod stream_port;
mod system_input;
mod system_output;
mod timed_stream;
mod waiters;
mod waiting;
mod watched_wire;
mod wire_line;
mod wire_socket;

pub use deadline::Deadline;
pub use device_port::DevicePort;
pub use listening::{Listener, Listening};
pub use polled_stream::PolledStream;
pub use port::Port;
pub use port_line::PortLine;
pub use report_file::ReportFile;
pub use silent_port::SilentPort;
pub use sockets::{call_tcp, call_unix, listen_tcp, listen_unix};
pub use standard_port::StandardPort;
pub use standard_streams::{StandardStreams, hold_descriptors};
pub use stream_port::StreamPort;
pub use system_input::SystemInput;
pub use system_output::SystemOutput;
pub use timed_stream::TimedStream;
pub use waiters::Waiters;
pub use watched_wire::{WatchedWire, open_watched_wire};
pub use wire_line::WireLine;
pub use wire_socket::open_wire;
