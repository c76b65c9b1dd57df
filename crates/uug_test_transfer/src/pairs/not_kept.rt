//! A file that comes to a folder of the system that can't keep it.

use crate::pairs::assertions::assert_so;
use crate::pairs::runs::{Given, folder_path, place_all, remove, within};
use std::fs::File;
use std::io::ErrorKind;
use std::net::Net;
use std::process;
use std::process::Abort;
use std::rt::Files;
use uug_error::{Cause, EndDir, Resource, SystemFailure};
use uug_io_disk::SystemFolder;
use uug_store::Folder;
use uug_talk::Name;

/// Lists what there is where a file comes to the folder `b`, and why it can't be kept there.
const NOT_KEPT: &[(&[Given<'static>], Cause)] = &[
    (
        &[Given::Folder("b")],
        Cause::Refused(ErrorKind::NotFound, Some(2)),
    ),
    (
        &[Given::Folder("b"), Given::File("b/got", b"g")],
        Cause::Refused(ErrorKind::NotADirectory, Some(20)),
    ),
    (
        &[Given::Folder("b/got/y")],
        Cause::Refused(ErrorKind::IsADirectory, Some(21)),
    ),
];

/// Asserts that a file can't be put into `got` of the folder `b`, and that the failure says which file, and why.
fn assert_not_kept(rt: &(impl Files<File = File> + Abort + AllocGlobal), dir: &str, cause: Cause) {
    let path = within(rt, dir, "b");
    let end = EndDir {
        path: path.as_str(),
        number: 1,
    };
    let mut folder = SystemFolder::new(rt.alloc(), rt, end).expect(rt, "memory");
    let name = Name::new(b"y").expect(rt, "a name");
    assert_so(rt, folder.put(&name, b"").is_err());
    let wanted = SystemFailure {
        end: 1,
        resource: Resource::Got(name),
        cause,
    };
    assert_so(rt, folder.failure() == Some(wanted));
}

fn put_where_nothing_is_kept(
    rt: &(impl Files<File = File> + Net + Abort + AllocGlobal + Clone + Drop),
    dir: &str,
) {
    for (given, cause) in NOT_KEPT {
        place_all(rt, dir, given);
        assert_not_kept(rt, dir, *cause);
        remove(rt, dir);
    }
}

// a failure that names another end, another file, or no cause
#[test]
fn says_why_a_file_is_not_kept(rt: HostRuntime) {
    let dir = folder_path(&rt, process::id(rt.process()), "not_kept");
    put_where_nothing_is_kept(&rt, dir.as_str());
}
