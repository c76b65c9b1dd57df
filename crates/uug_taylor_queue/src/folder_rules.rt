//! A list of folders from which files may be given, or into which they may be sent. Each is allowed or barred.
ghost use Rattle.std.specs.Prelude.{◌≡◌};
ghost use Rattle.uug_taylor_queue.specs.FolderRules.{after_rule, holds, holds_below, is_allowed, is_in, is_whole};

use crate::places::without_slash;
use uug_talk::split_word;

/// Returns whether a list of folders allows the file at this path, which is whole or below the public folder. The last
/// folder of the list that holds the path decides. Taylor UUCP's lists `remote-send` and `remote-receive` mean the same.
pub fn is_allowed(folders: &str, path: &[u8]) -> bool
    ensures { result ≡ is_allowed folders.now path.now }
{
    let mut is_allowed = false;
    let mut rest = folders.as_bytes();
    while let Some((rule, behind)) = split_word(rest) {
        is_allowed = after_rule(is_allowed, rule, path);
        rest = behind;
    }
    is_allowed
}

/// Returns whether a path is allowed after this folder of a list. `before` is whether it was allowed before it.
fn after_rule(before: bool, rule: &[u8], path: &[u8]) -> bool
    ensures { result ≡ after_rule before rule.now path.now }
{
    if rule.starts_with(b"!") {
        before && !holds(&rule[1..], path)
    } else {
        before || holds(rule, path)
    }
}

/// Returns whether a path is whole, and not below the public folder.
pub(crate) fn is_whole(path: &[u8]) -> bool
    ensures { result ≡ is_whole path.now }
{
    path.starts_with(b"/")
}

/// Returns whether a folder of a list holds a path. The folder may have a slash at its end.
fn holds(folder: &[u8], path: &[u8]) -> bool
    ensures { result ≡ holds folder.now path.now }
{
    if is_whole(folder) {
        is_in(without_slash(folder), path)
    } else {
        !is_whole(path) && holds_below(folder, path)
    }
}

/// Returns whether a folder of a list holds a path below the public folder, which is `~`.
fn holds_below(folder: &[u8], path: &[u8]) -> bool
    ensures { result ≡ holds_below folder.now path.now }
{
    if !folder.starts_with(b"~/") {
        return folder == b"~".as_slice();
    }
    folder.len() == 2 || is_in(without_slash(&folder[2..]), path)
}

/// Returns whether a path is this folder, or is in it.
pub(crate) fn is_in(folder: &[u8], path: &[u8]) -> bool
    ensures { result ≡ is_in folder.now path.now }
{
    if !path.starts_with(folder) {
        return false;
    }
    let rest = &path[folder.len()..];
    rest.is_empty() || rest.starts_with(b"/")
}
