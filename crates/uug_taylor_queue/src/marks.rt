//! The markers of received files: those of earlier sessions, and those of this one.
ghost use Rattle.std.specs.Prelude.{◌≡◌};
ghost use Rattle.std.specs.List.{list_any};
ghost use Rattle.uug_talk.specs.Lines.{lines};
ghost use Rattle.uug_taylor_queue.specs.Placing.{has_marker, has_same_text, is_again, is_data, is_mark, keeps, names_data, next_marks};

use std::alloc::Allocator;
use uug_talk::{Name, hash_text, split_line};
use uug_taylor_text::Room;

/// A marker that existed when the session began. Its file is in its place, or was used up there. The file may be sent
/// again.
#[derive(Drop)]
pub struct Came<A: Allocator> {
    /// Its name, which is that of its file.
    pub name: Name,
    /// Its text: an execution file's own text, or the digest of data.
    pub text: Vec<u8, A>,
}

/// The files received in this session that still have markers.
#[derive(Clone, Copy, Debug, PartialEq, Eq)]
pub struct Marks {
    /// The data received just before the last file, if that is an execution file.
    pub before: Option<Name>,
    /// The last file.
    pub last: Option<Name>,
    /// Set if the last file is data that was not received before the session.
    pub is_new: bool,
}

/// Returns whether the marker of the last file stays when a file for this room arrives: the last file is data, and the
/// new one an execution file. The sender may send both again until it knows that both were received.
pub(crate) fn keeps(room: Room, last: &Option<Name>) -> bool
    ensures { result ≡ keeps room last.now }
{
    match (room, last) {
        (Room::Execution, Some(last)) => last.as_bytes().starts_with(b"D."),
        _ => false,
    }
}

/// Returns whether files of this room are the data of execution files.
fn is_data(room: Room) -> bool
    ensures { result ≡ is_data room }
{
    matches!(room, Room::Data | Room::Text)
}

/// Returns the marks once a file of this room and name is received. `again` is whether it was received before the
/// session.
pub(crate) fn next_marks(marks: &Marks, room: Room, again: bool, name: &Name) -> Marks
    ensures { result ≡ next_marks marks.now room again name.now }
{
    let before = if keeps(room, &marks.last) {
        marks.last
    } else {
        None
    };
    Marks {
        before,
        last: Some(*name),
        is_new: is_data(room) && !again,
    }
}

/// Returns whether there is a marker and it has this name.
pub(crate) fn is_mark(mark: &Option<Name>, name: &Name) -> bool
    ensures { result ≡ is_mark mark.now name.now }
{
    match mark {
        Some(mark) => mark.as_bytes() == name.as_bytes(),
        None => false,
    }
}

/// Returns whether the text of an execution file names a file that must exist.
fn names_data(text: &[u8]) -> bool
    ensures { result ≡ names_data text.now }
{
    let mut rest = text;
    while let Some((line, behind)) = split_line(rest) {
        if line.starts_with(b"F ") {
            return true;
        }
        rest = behind;
    }
    false
}

fn has_marker<A: Allocator>(came: &[Came<A>], name: &Name, text: &[u8]) -> bool
    ensures { result ≡ has_marker came.now name.now text.now }
{
    came.iter().any(|other| {
        other.name.as_bytes() == name.as_bytes() && other.text.as_slice() == text
    })
}

fn has_same_text<A: Allocator>(came: &[Came<A>], text: &[u8]) -> bool
    ensures { result ≡ has_same_text came.now text.now }
{
    came.iter().any(|other| other.text.as_slice() == text)
}

/// Returns whether a file of this room, name and bytes was received before the session. Its name alone does not show
/// that: a sender with a new spool uses the same names again. An execution file is new if the data received just before
/// it is new. Otherwise, if it names its data, its text alone identifies it: Taylor UUCP gives it another name at each
/// try, but its text has the name of its data. A file in the public folder always counts as new: another may be sent
/// under its name.
pub(crate) fn is_again<A: Allocator>(
    room: Room,
    is_new: bool,
    came: &[Came<A>],
    name: &Name,
    bytes: &[u8],
) -> bool
    ensures { result ≡ is_again room is_new came.now name.now bytes.now }
{
    match room {
        Room::Public => false,
        Room::Execution => {
            !is_new
                && (has_marker(came, name, bytes)
                    || (names_data(bytes) && has_same_text(came, bytes)))
        }
        _ => has_marker(came, name, &hash_text(bytes)),
    }
}
