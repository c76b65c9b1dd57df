//! Places in the public folder, as it is when a session begins.

use crate::assertions::{assert_same_at, name};
use std::alloc::Global;
use std::process::Abort;
use uug_session::{FileLimit, KeepFault, Partials, Spool};
use uug_store::NoNotebook;
use uug_talk::Name;
use uug_taylor_queue::{MailSettings, MailSpool, PublicFolder, SpoolFolder};
use uug_taylor_text::MemoryDisk;

/// A source, a target, and the name of the file's place in the public folder.
const ROWS: [(&str, &str, Option<&str>); 26] = [
    ("/srv/f", "~/x", Some("x")),
    ("/srv/f", "~/", Some("f")),
    ("/srv/f", "~/in", Some("in/f")),
    ("/srv/f", "~/in/", Some("in/f")),
    ("/srv/f", "~/in/x", Some("in/x")),
    ("/srv/f", "~/theirs", None),
    ("/srv/f", "~/out/", Some("out/f")),
    ("/srv/f", "~/out/x", Some("out/x")),
    ("/srv/f", "~/out/more/x", Some("out/more/x")),
    ("/srv/f", "~/in/deep", Some("in/deep/f")),
    ("/srv/f", "~/in/deep/x", Some("in/deep/x")),
    ("/srv/f", "~/in/../x", None),
    ("/srv/f", "~/in//x", None),
    ("/srv/f", "~/theirs/x", None),
    ("/srv/f", "/etc/x", None),
    ("/srv/f", "/etc/", None),
    ("/srv/.f", "~/", None),
    ("/srv/theirs", "~/", None),
    ("/srv/f", "~/sealed/x", None),
    ("/srv/f", "/home/ftp/x", Some("/home/ftp/x")),
    ("/srv/f", "/home/ftp", Some("/home/ftp/f")),
    ("/srv/f", "/home/ftp/in/", Some("/home/ftp/in/f")),
    ("/srv/f", "/home/ftp/theirs", None),
    ("/srv/f", "/home/ftp/new/x", None),
    ("/srv/f", "/home/ftp/../x", None),
    ("/srv/f", "/home/ftp2/x", None),
];

fn names(rt: &impl Abort, alloc: Global, texts: &[&str]) -> Vec<Name, Global> {
    let mut names = Vec::new(alloc);
    for text in texts {
        names.push(name(rt, text)).expect(rt, "memory");
    }
    names
}

fn public(rt: &impl Abort, alloc: Global) -> PublicFolder<Global> {
    PublicFolder {
        folders: names(
            rt,
            alloc,
            &[
                "in",
                "shut",
                "in/deep",
                "sealed",
                "/home/ftp",
                "/home/ftp/in",
            ],
        ),
        others: names(rt, alloc, &["theirs"]),
        barred: names(rt, alloc, &["theirs", "sealed", "/home/ftp/theirs"]),
        is_closed: false,
        delayed: Vec::new(alloc),
        is_unknown: false,
        taken: String::from_str(alloc, "~/ !~/shut/ /home/ftp/in/").expect(rt, "memory"),
    }
}

pub type Files = MailSpool<MemoryDisk<Global>, NoNotebook, Global>;

/// Returns a spool that holds this of files that were cut off.
pub fn files(rt: &impl Abort, alloc: Global, partials: Option<Partials<Global>>) -> Files {
    let folder = SpoolFolder::new(MemoryDisk::new(alloc, 1000), Vec::new(alloc));
    MailSpool::new(
        alloc,
        Vec::new(alloc),
        public(rt, alloc),
        folder,
        partials,
        NoNotebook,
        MailSettings {
            is_lenient: true,
            tells_digests: false,
            limit: FileLimit::standard(),
        },
    )
}

fn assert_place(rt: &impl Abort, alloc: Global, row: (&str, &str, Option<&str>)) {
    let (source, target, expected) = row;
    let folder = public(rt, alloc);
    let landing = folder.landing(&name(rt, source), &name(rt, target));
    let place = folder.place_in(&landing);
    let is_same = match (&place, expected) {
        (Some(place), Some(expected)) => place.name.as_bytes() == expected.as_bytes(),
        (None, None) => true,
        _ => false,
    };
    assert_same_at(rt, is_same, true, target);
    let mut files = files(rt, alloc, None);
    let kept = files.keep(&landing, 0o644, b"bytes");
    assert_same_at(rt, kept.is_ok(), place.is_some(), target);
    assert_same_at(rt, kept == Err(KeepFault::Refused), place.is_none(), target);
}

#[test]
fn a_folder_takes_a_file_under_its_own_name(rt: HostRuntime) {
    for row in ROWS {
        assert_place(&rt, rt.alloc(), row);
    }
}

/// A target, and whether a file that comes there unasked is taken.
const TAKEN: [(&str, bool); 9] = [
    ("~/x", true),
    ("~/in/x", true),
    ("~/shut/x", false),
    ("~/shut/more/x", false),
    ("~/out/x", true),
    ("~/theirs/x", false),
    ("D.alphaN0001", true),
    ("/home/ftp/in/x", true),
    ("/home/ftp/x", false),
];

#[test]
fn a_barred_folder_takes_nothing_unasked(rt: HostRuntime) {
    let folder = public(&rt, rt.alloc());
    for (target, is_taken) in TAKEN {
        assert_same_at(&rt, folder.takes(&name(&rt, target)), is_taken, target);
    }
}
