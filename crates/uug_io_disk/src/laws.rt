//! Laws of the limits of a folder on a disk. A call does nothing: its contract is the law.
ghost use Rattle.std.specs.Prelude.{◌≡◌};
ghost use Rattle.uug_io_disk.specs.declared.given_files.TheConstants.{OTHERS_MAX};
ghost use Rattle.uug_io_disk.specs.declared.part_path.TheConstants.{TRIES_MAX};
ghost use Rattle.uug_io_disk.specs.declared.queued_copy.TheConstants.{NAMES_MAX};
ghost use Rattle.uug_io_disk.specs.declared.queued_line.TheConstants.{APPENDS_MAX};
ghost use Rattle.uug_io_disk.specs.declared.send_folder.TheConstants.{FILES_MAX, GIVEN_MODE, TEXT_MAX};
ghost use Rattle.uug_io_disk.specs.declared.system_folder.TheConstants.{FOLDERS_MAX};

/// States the value of each limit: the files to give in a folder of `pair`; the files that an end of `call` or `answer`
/// gives besides those of its jobs; the mode of each given file; the bytes of a text; the folders in `got` whose names
/// are barred; the names that are tried for an incomplete file; the names that are tried for a copy of a queued file;
/// and the files that may replace `jobs` in a row while a job is appended.
pub fn limits()
    ensures files { FILES_MAX ≡ 256 }
    ensures others { OTHERS_MAX ≡ 256 }
    ensures mode { GIVEN_MODE ≡ 420 }
    ensures text { TEXT_MAX ≡ 16777216 }
    ensures folders { FOLDERS_MAX ≡ 256 }
    ensures tries { TRIES_MAX ≡ 1000 }
    ensures names { NAMES_MAX ≡ 1000000 }
    ensures appends { APPENDS_MAX ≡ 1000 }
{}
