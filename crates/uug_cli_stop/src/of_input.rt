//! The reasons why a task with an input gave up.
ghost use Rattle.std.specs.Prelude.{string_bytes};
ghost use Rattle.uug_cli_stop.specs.Stop.{StopsOnFile, StopsOnScript, StopsOnScriptFile};

use crate::said::names_file;
use crate::stop::Stop;
use std::alloc::Global;
use uug_error::RunFault;
use uug_stream::ToolFault;

/// Returns why a task that reads the file of this name gave up. Names the file if it is the cause.
pub(crate) fn stop_of_file(alloc: Global, path: &str, fault: RunFault) -> Stop
    ensures { StopsOnFile path.now fault result }
{
    match fault {
        RunFault::Unread(failure) => names_file(alloc, path, failure),
        fault => Stop::Fault(fault.answer()),
    }
}

/// Returns why a script was not played, with the remark if the script is bad.
pub(crate) fn stop_of_script(fault: RunFault, remark: String) -> Stop
    ensures { StopsOnScript fault (string_bytes remark) result }
{
    match fault {
        RunFault::Tool(ToolFault::Script(line)) => {
            Stop::Remarked(ToolFault::Script(line), remark)
        }
        fault => Stop::Fault(fault.answer()),
    }
}

/// Does the same for the script in the file of this name.
pub(crate) fn stop_of_script_file(
    alloc: Global,
    path: &str,
    fault: RunFault,
    remark: String,
) -> Stop
    ensures { StopsOnScriptFile path.now fault (string_bytes remark) result }
{
    match fault {
        RunFault::Unread(failure) => names_file(alloc, path, failure),
        fault => stop_of_script(fault, remark),
    }
}
