//! The names of the files of a spool: the place of a file that another system sends, and the names of data.
ghost use Rattle.std.specs.Prelude.{◌≡◌, ◌+◌, ◌≤◌, ◌++◌, length};
ghost use Rattle.uug_taylor_text.specs.SpoolNames.{data_spot, far_name, has_slash, has_two_dots, is_data_name, is_system_name, local_name, public_spot, spool_spot, spot_of};
ghost use Rattle.uug_taylor_text.specs.declared.spool_names.TheConstants.{FAR_NAME_MAX};

use arrayvec::ArrayVec;
use thiserror::Error;
use uug_talk::Name;

/// The maximum size of a name that this system gives to its own data, in bytes: `D.` and four digits.
pub const OWN_DATA_MAX: usize = 6;

/// The maximum size of a name that this system gives to its own texts, in bytes: `D.X` and four digits.
pub const OWN_TEXT_MAX: usize = 7;

/// The maximum size of the name of data at another system, in bytes.
pub const FAR_NAME_MAX: usize = 14;

/// The maximum number of letters of a node's name in the names of its files at another system.
const NODE_LETTERS: usize = 7;

/// A folder of a spool, or the public one.
#[derive(Clone, Copy, Debug, PartialEq, Eq)]
pub enum Room {
    /// The system's `C.`: jobs for it.
    Commands,
    /// The system's `D.`: data.
    Data,
    /// The system's `D.X`: data whose name begins with these letters.
    Text,
    /// The system's `X.`: execution files.
    Execution,
    /// The public folder.
    Public,
    /// The system's folder in `.Temp`: files that are being received, or written to replace a C. file.
    Temporary,
    /// The system's folder in `.Received`: a marker for each received file.
    Marked,
    /// `.Preserve`, which all systems share: data of jobs that have failed.
    Preserved,
}

/// The place of a file: a room, and the name in it.
#[derive(Clone, Copy, Debug, PartialEq, Eq)]
pub struct Spot {
    /// The room of the file.
    pub room: Room,
    /// Its name there.
    pub name: Name,
}

/// The reason why no file is accepted under a name.
#[derive(Clone, Copy, Debug, PartialEq, Eq, Error)]
pub enum Barred {
    /// The name is a path that may lead elsewhere, or names a folder.
    #[error("not a name in the public folder or the spool")]
    Path,
    /// The name is that of a C. file.
    #[error("the name of a job")]
    Commands,
    /// The name is one that this system gives to its own data.
    #[error("the name of data of this system")]
    Ours,
    /// The name is in the public folder, and begins with a dot.
    #[error("a hidden name")]
    Hidden,
}

fn has_slash(name: &[u8]) -> bool
    ensures { result ≡ has_slash name.now }
{
    name.contains(&b'/')
}

/// Returns whether a name has two dots side by side.
fn has_two_dots(name: &[u8]) -> bool
    ensures { result ≡ has_two_dots name.now }
{
    let mut rest = name;
    while !rest.is_empty() {
        if rest.starts_with(b"..") {
            return true;
        }
        rest = &rest[1..];
    }
    false
}

/// Returns the place of a file that another system sends under this name.
///
/// `D.` and `X.` names without a slash are in the spool, except those that this system gives to its own data. `~/x`,
/// `/x` and `x` are `x` in the public folder. Everything else is barred: C. names, two dots side by side, any other
/// slash, any other tilde in front, a dot in front, and the public folder itself.
pub fn spot_of(target: &Name) -> Result<Spot, Barred>
    ensures { result ≡ spot_of target.now }
{
    let name = target.as_bytes();
    if has_two_dots(name) {
        return Err(Barred::Path);
    }
    if name.starts_with(b"C.") {
        Err(Barred::Commands)
    } else if name.starts_with(b"D.X") {
        spool_spot(Room::Text, OWN_TEXT_MAX, target)
    } else if name.starts_with(b"D.") {
        spool_spot(Room::Data, OWN_DATA_MAX, target)
    } else if name.starts_with(b"X.") {
        spool_spot(Room::Execution, 0, target)
    } else {
        public_spot(local_name(name))
    }
}

/// Returns the place of a file in the spool. Names of at most `own_max` bytes are this system's own, and barred.
fn spool_spot(room: Room, own_max: usize, name: &Name) -> Result<Spot, Barred>
    ensures { result ≡ spool_spot room own_max name.now }
{
    let bytes = name.as_bytes();
    if has_slash(bytes) {
        return Err(Barred::Path);
    }
    if bytes.len() <= own_max {
        return Err(Barred::Ours);
    }
    Ok(Spot { room, name: *name })
}

/// Strips `~/` or `/` from the front of a name.
pub fn local_name(name: &[u8]) -> &[u8]
    ensures { result.now ≡ local_name name.now }
{
    if name.starts_with(b"~/") {
        &name[2..]
    } else if name.starts_with(b"/") {
        &name[1..]
    } else {
        name
    }
}

/// Returns the place of a file of this name in the public folder.
fn public_spot(name: &[u8]) -> Result<Spot, Barred>
    ensures { result ≡ public_spot name.now }
{
    if has_slash(name) || name.starts_with(b"~") {
        return Err(Barred::Path);
    }
    if name.starts_with(b".") {
        return Err(Barred::Hidden);
    }
    match Name::new(name) {
        Ok(name) => Ok(Spot {
            room: Room::Public,
            name,
        }),
        Err(_) => Err(Barred::Path),
    }
}

/// Returns whether a name can be that of data in a spool: `D.` and more, without a slash and without two dots side by
/// side.
pub fn is_data_name(name: &[u8]) -> bool
    ensures { result ≡ is_data_name name.now }
{
    name.len() > 2 && name.starts_with(b"D.") && !has_slash(name) && !has_two_dots(name)
}

/// Returns the place of data of this name for another system.
pub fn data_spot(name: &Name) -> Spot
    ensures { result ≡ data_spot name.now }
{
    let room = if name.as_bytes().starts_with(b"D.X") {
        Room::Text
    } else {
        Room::Data
    };
    Spot { room, name: *name }
}

/// Returns whether the name of a system can be that of its folder in a spool: no slash, and no leading dot.
pub fn is_system_name(name: &Name) -> bool
    ensures { result ≡ is_system_name name.now }
{
    let bytes = name.as_bytes();
    !has_slash(bytes) && !bytes.starts_with(b".")
}

/// Returns the name of a file of this node at another system: the kind of the file (`D` or `X`), a dot, the first seven
/// letters of the node's name, the grade and the number.
pub fn far_name(kind: u8, node: &Name, grade: u8, number: [u8; 4]) -> ArrayVec<u8, FAR_NAME_MAX>
    ensures { result.items ≡ far_name kind node.now grade number }
{
    let node = node.as_bytes();
    let letters = &node[..node.len().min(NODE_LETTERS)];
    let mut name = ArrayVec::new();
    name.push(kind);
    name.push(b'.');
    push_all(&mut name, letters);
    name.push(grade);
    push_all(&mut name, &number);
    name
}

fn push_all(name: &mut ArrayVec<u8, FAR_NAME_MAX>, bytes: &[u8])
    requires { length name.old.items + length bytes.now ≤ FAR_NAME_MAX }
    ensures { name.new.items ≡ name.old.items ++ bytes.now }
{
    let Ok(()) = name.try_extend_from_slice(bytes) else {
        unreachable!();
    };
}
