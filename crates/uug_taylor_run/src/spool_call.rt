//! The task of a call over a spool, and the paths of its folders.
ghost use Rattle.std.specs.Path.{rsplit_once, slash};
ghost use Rattle.std.specs.Prelude.{◌≡◌, IfOk, MatchOption, None, Some, string_bytes};
ghost use Rattle.uug_taylor_run.specs.PublicNames.{folder_of, public_beside, public_path, without_slash};

use std::alloc::{AllocError, Allocator};
use uug_config::{Outputs, SessionSettings, SpoolOptions};
use uug_session::Side;
use uug_store::Allowance;
use uug_talk::Name;
use uug_taylor_disk::SpoolPaths;
use uug_taylor_queue::split_last;

/// The task of a call over a spool.
#[derive(Clone, Copy)]
pub struct SpoolCall<'a> {
    /// The side of this end: it calls, or is called.
    pub side: Side,
    /// The path of the spool.
    pub dir: &'a str,
    /// The name of its line in the log and the statistics.
    pub port: &'a str,
    /// The settings of its session.
    pub settings: SessionSettings,
    /// The allowance for the files that it reads for a session.
    pub allowance: Allowance,
    /// Its outputs.
    pub outputs: Outputs<'a>,
    /// The options of its spool.
    pub spool: SpoolOptions<'a>,
}

/// Returns the paths of the folders of a system.
pub(crate) fn paths_of<A: Allocator + Copy>(
    alloc: A,
    call: &SpoolCall<'_>,
    system: Name,
) -> Result<SpoolPaths<A>, AllocError>
    ensures spool { IfOk result (λ paths. string_bytes paths.spool ≡ call.now.dir.now) }
    ensures system { IfOk result (λ paths. paths.system ≡ system) }
    ensures public { IfOk result (λ paths.
        string_bytes paths.public ≡ public_path call.now.dir.now call.now.spool.public) }
{
    match call.spool.public {
        Some(public) => SpoolPaths::new(alloc, call.dir, system, without_slash(public)),
        None => {
            let public = public_beside(alloc, call.dir)?;
            SpoolPaths::new(alloc, call.dir, system, public.as_str())
        }
    }
}

/// Returns a path without the slash at its end, if it has one.
fn without_slash(path: &str) -> &str
    ensures { result.now ≡ without_slash path.now }
{
    match path.strip_suffix("/") {
        Some(front) => front,
        None => path,
    }
}

/// Returns the path of the public folder if none is named: `uucppublic` beside the spool. If the path of the spool is
/// absolute, this is the path that `uucp` writes in its jobs.
fn public_beside<A: Allocator>(alloc: A, spool: &str) -> Result<String<A>, AllocError>
    ensures { IfOk result (λ public. string_bytes public ≡ public_beside spool.now) }
{
    match folder_of(spool) {
        Some(folder) => format!(in alloc; "{folder}/uucppublic"),
        None => format!(in alloc; "{spool}/../uucppublic"),
    }
}

/// Returns the path of the folder that holds a spool, if the spool's path is absolute and ends in a name.
fn folder_of(spool: &str) -> Option<&str>
    ensures { MatchOption result (folder_of spool.now ≡ None)
        (λ folder. folder_of spool.now ≡ Some folder.now) }
{
    if !spool.as_bytes().starts_with(b"/") {
        return None;
    }
    let (folder, name) = split_last(spool)?;
    if name.is_empty() { None } else { Some(folder) }
}
