//! The options of one end that need a spool.
ghost use Rattle.std.specs.Prelude.{◌≡◌};
ghost use Rattle.uug_cli.specs.SpoolOptions.{folder_option, lacks_spool, spool_option};

use uug_config::{CallTask, SpoolOptions};

/// Returns whether an option that needs a spool is given to an end without one.
pub fn lacks_spool(task: &CallTask<'_>) -> bool
    ensures { result ≡ lacks_spool task.now }
{
    !task.is_spool && !spool_option(&task.spool).is_empty()
}

/// Returns the first of these options that is given, or an empty text if none is.
pub(crate) fn spool_option(options: &SpoolOptions<'_>) -> &'static str
    ensures { result.now ≡ spool_option options.now }
{
    if options.public.is_some() {
        "--public"
    } else if options.stats.is_some() {
        "--stats"
    } else if options.grade.is_some() {
        "--grade"
    } else if options.port.is_some() {
        "--port-name"
    } else {
        folder_option(options.rules.gives, options.rules.takes)
    }
}

/// Returns the first of `--give` and `--take` whose list of open folders is not the default, or an empty text.
fn folder_option(gives: &str, takes: &str) -> &'static str
    ensures { result.now ≡ folder_option gives.now takes.now }
{
    if gives.as_bytes() != b"~".as_slice() {
        "--give"
    } else if takes.as_bytes() != b"~".as_slice() {
        "--take"
    } else {
        ""
    }
}
