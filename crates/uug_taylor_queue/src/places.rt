//! The place of a file that another system sends, given the contents of the public folder, and of the listed folders
//! elsewhere, when the session begins.
ghost use Rattle.std.specs.Path.{rsplit_once, slash};
ghost use Rattle.std.specs.Prelude.{◌≡◌, ◌≤◌, ◌++◌, MatchOption, None, OnOk, Some, length, true};
ghost use Rattle.uug_taylor_queue.specs.FolderRules.{is_whole, without_slash};
ghost use Rattle.uug_taylor_queue.specs.Places.{all_elsewhere, deep_by, deep_place, elsewhere, front_of, is_blocked, is_elsewhere, is_folder_at, is_home, is_path, is_path_from, is_public_last, is_public_name, is_public_path, is_spooled, is_taken, landing, last_part, may_begin, may_hold, path_in, place_in, placed, shown_public, takes, temp_name, top_place, written};
ghost use Rattle.uug_taylor_text.specs.SpoolNames.{local_name, spot_of};
ghost use Rattle.uug_talk.specs.Name.{name_of};
ghost use Rattle.uug_talk.specs.Words.{words};

use crate::folder_rules::{is_allowed, is_in, is_whole};
use arrayvec::ArrayVec;
use std::alloc::{AllocError, Allocator};
use uug_conversation::has_name;
use uug_talk::{NAME_MAX, Name, split_word};
use uug_taylor_text::{Barred, Room, Spot, local_name, spot_of};

/// The maximum size of a path, in bytes: `NAME_MAX` bytes in a folder and a name, and the slash between them.
const PATH_MAX: usize = NAME_MAX + 1;

/// The maximum size of a path as a name has it, in bytes: a path, a tilde and a slash.
const WRITTEN_MAX: usize = PATH_MAX + 2;

/// The contents of the public folder, and of the listed folders elsewhere, when a session begins.
#[derive(Drop)]
pub struct PublicFolder<A: Allocator> {
    /// The paths of the folders below it, and the whole paths of the listed folders elsewhere and of those below them.
    pub folders: Vec<Name, A>,
    /// The paths of everything else in these folders: files, links.
    pub others: Vec<Name, A>,
    /// The paths of the files that can't be replaced, and of the folders in which no file can be stored.
    pub barred: Vec<Name, A>,
    /// Set if no file can be stored there at all.
    pub is_closed: bool,
    /// The names of the files that can't be given now, but may be later.
    pub delayed: Vec<Name, A>,
    /// Set if its files could not be listed: each may be given later.
    pub is_unknown: bool,
    /// The list of folders into which the other system may send files (see `is_allowed`).
    pub taken: String<A>,
}

/// Splits a path at its last slash, if it has one.
pub fn split_last(path: &str) -> Option<(&str, &str)>
    ensures { MatchOption result (rsplit_once slash path.now ≡ None)
        (λ parts. rsplit_once slash path.now ≡ Some (parts.0.now, parts.1.now)) }
{
    match path.rsplit_once('/') {
        Some((folder, name)) => Some((folder, name)),
        None => None,
    }
}

/// Returns the part of a name after its last slash, or all of it.
fn last_part(name: &Name) -> &[u8]
    ensures { result.now ≡ last_part name.now }
{
    match split_last(name.as_str()) {
        Some((_, last)) => last.as_bytes(),
        None => name.as_bytes(),
    }
}

/// Returns whether this can be the name of a file directly in the public folder.
fn is_public_name(name: &Name) -> bool
    ensures { result ≡ is_public_name name.now }
{
    match spot_of(name) {
        Ok(target) => target.room == Room::Public && split_last(name.as_str()).is_none(),
        Err(_) => false,
    }
}

impl<A: Allocator> PublicFolder<A> {
    /// Returns the place of a file that arrives under this name, or `None` if it has none. The place may be in a folder
    /// below the public folder, or in one elsewhere. For a name `~/PATH` that folder may be missing, but no file or link may be in its place.
    pub fn place_in(&self, name: &Name) -> Option<Spot>
        ensures { result ≡ place_in (shown_public self.now) name.now }
    {
        self.placed(name, spot_of(name))
    }

    /// Returns whether the other system may send a file under this name. The file must have a place. If that is in the
    /// public folder, the list of folders must allow it.
    pub fn takes(&self, name: &Name) -> bool
        ensures { result ≡ takes (shown_public self.now) name.now }
    {
        match self.place_in(name) {
            Some(target) => {
                if target.room == Room::Public {
                    is_allowed(self.taken.as_str(), target.name.as_bytes())
                } else {
                    true
                }
            }
            None => false,
        }
    }

    fn placed(&self, name: &Name, target: Result<Spot, Barred>) -> Option<Spot>
        ensures { result ≡ placed (shown_public self.now) name.now target }
    {
        match target {
            Ok(target) => {
                if target.room == Room::Public {
                    self.top_place(&target.name)
                } else {
                    Some(target)
                }
            }
            Err(_) => {
                let path = Name::new(self.path_in(name.as_bytes())).ok();
                self.deep_place(is_home(name.as_bytes()), &path)
            }
        }
    }

    /// Returns the path that a name means.
    fn path_in<'a>(&self, name: &'a [u8]) -> &'a [u8]
        ensures { result.now ≡ path_in (shown_public self.now) name.now }
    {
        if self.is_elsewhere(name) {
            name
        } else {
            local_name(name)
        }
    }

    /// Returns whether a name is a path in a listed folder elsewhere.
    fn is_elsewhere(&self, name: &[u8]) -> bool
        ensures { result ≡ is_elsewhere (shown_public self.now) name.now }
    {
        self.folders.iter().any(|folder| is_whole(folder.as_bytes())
            && is_in(folder.as_bytes(), name))
    }

    /// Returns whether no file of this name can be stored directly in the public folder.
    fn is_taken(&self, name: &Name) -> bool
        ensures { result ≡ is_taken (shown_public self.now) name.now }
    {
        self.is_closed
            || has_name(self.folders.as_slice(), name.as_bytes())
            || has_name(self.barred.as_slice(), name.as_bytes())
    }

    fn top_place(&self, name: &Name) -> Option<Spot>
        ensures { result ≡ top_place (shown_public self.now) name.now }
    {
        if is_public_name(name) && !self.is_taken(name) {
            Some(Spot {
                room: Room::Public,
                name: *name,
            })
        } else {
            None
        }
    }

    fn deep_place(&self, home: bool, name: &Option<Name>) -> Option<Spot>
        ensures { result ≡ deep_place (shown_public self.now) home name.now }
    {
        match name {
            Some(name) => self.deep_by(home, name),
            None => None,
        }
    }

    /// Returns whether the folder of this path is open. It must exist, unless it can be created for a name that begins
    /// with `~/`.
    fn may_hold(&self, home: bool, folder: &[u8]) -> bool
        ensures { result ≡ may_hold (shown_public self.now) home folder.now }
    {
        is_path(folder)
            && !has_name(self.barred.as_slice(), folder)
            && (has_name(self.folders.as_slice(), folder)
                || home && !(self.is_closed || self.is_blocked(folder)))
    }

    /// Returns whether something that is not a folder has this path, or one above it.
    fn is_blocked(&self, folder: &[u8]) -> bool
        ensures { result ≡ is_blocked (shown_public self.now) folder.now }
    {
        self.others
            .iter()
            .any(|other| is_in(other.as_bytes(), folder))
    }

    /// Returns the place of this path in a folder below the public folder, or elsewhere.
    fn deep_by(&self, home: bool, name: &Name) -> Option<Spot>
        ensures { result ≡ deep_by (shown_public self.now) home name.now
            (rsplit_once slash name.now) }
    {
        let Some((folder, last)) = split_last(name.as_str()) else {
            return None;
        };
        let is_taken = has_name(self.folders.as_slice(), name.as_bytes())
            || has_name(self.barred.as_slice(), name.as_bytes());
        if self.may_hold(home, folder.as_bytes()) && is_public_last(last.as_bytes()) && !is_taken {
            Some(Spot {
                room: Room::Public,
                name: *name,
            })
        } else {
            None
        }
    }
}

impl<A: Allocator> PublicFolder<A> {
    /// Returns the name under which a file called `source` and sent to `target` is stored. If `target` is the public
    /// folder, a folder below it or elsewhere, or a path `~/PATH/`, the file is stored there under the last part of
    /// `source`. Any other target stays as it is, and so does one whose path would be too long.
    pub fn landing(&self, source: &Name, target: &Name) -> Name
        ensures { result ≡ landing (shown_public self.now) source.now target.now }
    {
        if is_spooled(target) {
            return *target;
        }
        let path = self.path_in(target.as_bytes());
        if !self.is_folder_at(is_home(target.as_bytes()), path) {
            return *target;
        }
        match name_in(without_slash(path), last_part(source)) {
            Some(name) => name,
            None => *target,
        }
    }

    /// Returns whether a path means a folder: that folder exists, or it was written `~/PATH/`.
    fn is_folder_at(&self, home: bool, path: &[u8]) -> bool
        ensures { result ≡ is_folder_at (shown_public self.now) home path.now }
    {
        let folder = without_slash(path);
        folder.is_empty()
            || has_name(self.folders.as_slice(), folder)
            || home && path.ends_with(b"/")
    }
}

/// Returns whether a name begins with `~/`.
fn is_home(name: &[u8]) -> bool
    ensures { result ≡ is_home name.now }
{
    name.starts_with(b"~/")
}

/// Returns whether a name belongs to the spool, and not to the public folder.
fn is_spooled(target: &Name) -> bool
    ensures { result ≡ is_spooled (spot_of target.now) }
{
    match spot_of(target) {
        Ok(target) => target.room != Room::Public,
        Err(_) => false,
    }
}

/// Strips a slash from the end of a name.
pub(crate) fn without_slash(name: &[u8]) -> &[u8]
    ensures { result.now ≡ without_slash name.now }
{
    match name.strip_suffix(b"/".as_slice()) {
        Some(front) => front,
        None => name,
    }
}

/// Returns the name of the file `last` in a folder: `~/FOLDER/LAST`, or `~/LAST` if `folder` is empty, or `FOLDER/LAST`
/// if that is a whole path. Returns `None` if that is not a valid name.
pub fn name_in(folder: &[u8], last: &[u8]) -> Option<Name>
    ensures { result ≡ name_of (written (front_of folder.now ++ last.now)) }
{
    if folder.len() + last.len() > NAME_MAX {
        return None;
    }
    let mut path: ArrayVec<u8, PATH_MAX> = ArrayVec::new();
    let Ok(()) = path.try_extend_from_slice(folder) else {
        unreachable!();
    };
    if !folder.is_empty() {
        path.push(b'/');
    }
    let Ok(()) = path.try_extend_from_slice(last) else {
        unreachable!();
    };
    written(path.as_slice())
}

/// Returns a path as a name has it: `~/PATH` for a path below the public folder. Returns `None` if that is not a valid
/// name.
fn written(path: &[u8]) -> Option<Name>
    requires { length path.now ≤ PATH_MAX }
    ensures { result ≡ name_of (written path.now) }
{
    let mut name: ArrayVec<u8, WRITTEN_MAX> = ArrayVec::new();
    if !is_whole(path) {
        name.push(b'~');
        name.push(b'/');
    }
    let Ok(()) = name.try_extend_from_slice(path) else {
        unreachable!();
    };
    Name::new(name.as_slice()).ok()
}

/// Returns whether a file may be given under this path. The path must be a file's name, or a folder's path, a slash and
/// a file's name.
pub fn is_public_path(path: &Name) -> bool
    ensures { result ≡ is_public_path path.now }
{
    match split_last(path.as_str()) {
        Some((folder, last)) => is_path(folder.as_bytes()) && is_public_last(last.as_bytes()),
        None => is_public_name(path),
    }
}

/// Returns whether a path is a list of names, separated by slashes, or such a list behind a slash. No name may begin with
/// a dot, a slash or a tilde.
fn is_path(path: &[u8]) -> bool
    ensures { result ≡ is_path path.now }
{
    match path.strip_prefix(b"/".as_slice()) {
        Some(behind) => is_list(behind),
        None => is_list(path),
    }
}

/// Adds the folders of a list that are outside the public folder, by their whole paths. One whose path is not valid in a
/// session is left out.
pub fn add_elsewhere<A: Allocator>(
    found: &mut Vec<Name, A>,
    folders: &str,
) -> Result<(), AllocError>
    ensures { OnOk result (found.new.items ≡ found.old.items ++ all_elsewhere (words folders.now)) }
{
    let mut rest = folders.as_bytes();
    while let Some((folder, behind)) = split_word(rest) {
        if let Some(path) = elsewhere(folder) {
            found.push(path)?;
        }
        rest = behind;
    }
    Ok(())
}

/// Returns the whole path of a folder of a list, if it is outside the public folder and valid in a session.
fn elsewhere(folder: &[u8]) -> Option<Name>
    ensures { result ≡ elsewhere folder.now }
{
    let path = without_slash(folder);
    if is_whole(path) && is_path(path) {
        Name::new(path).ok()
    } else {
        None
    }
}

/// Returns whether these bytes are names, separated by slashes, and none begins with a dot, a slash or a tilde.
fn is_list(bytes: &[u8]) -> bool
    ensures { result ≡ is_path_from true bytes.now }
{
    let mut at_start = true;
    let mut rest = bytes;
    while !rest.is_empty() {
        let byte = rest[0];
        if at_start && !may_begin(byte) {
            return false;
        }
        at_start = byte == b'/';
        rest = &rest[1..];
    }
    !at_start
}

/// Returns whether a name in a path may begin with this byte.
fn may_begin(byte: u8) -> bool
    ensures { result ≡ may_begin byte }
{
    !matches!(byte, b'.' | b'/' | b'~')
}

/// Returns whether these bytes can be the name of a file directly in the public folder.
fn is_public_last(last: &[u8]) -> bool
    ensures { result ≡ is_public_last (name_of last.now) }
{
    match Name::new(last) {
        Ok(name) => is_public_name(&name),
        Err(_) => false,
    }
}

/// Returns the name that a file of this place has while it is received: the part of its name after the last slash.
pub fn temp_name(target: &Spot) -> Name
    ensures { result ≡ temp_name target.now }
{
    match Name::new(last_part(&target.name)) {
        Ok(name) => name,
        Err(_) => target.name,
    }
}
