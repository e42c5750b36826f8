ghost use Rattle.std.specs.Prelude.{OnOk};
ghost use Rattle.std.specs.Io.KnownBytes.{Appends};

use super::refused::Refused;
use super::retrying::write_some;
use std::alloc::{AllocGlobal, Global};
use std::fs::{self, Files, Metadata, OpenFile, OpenOptions, Permissions};
use std::io::{self, ErrorKind, Write};
use std::os::unix::fs::{MetadataExt, OpenOptionsExt};
use std::path::{Path, PathBuf};
use std::random::RandomSource;
use std::rt::Clock;

/// How many links are followed from a name to its file, which is as many as Linux follows.
const MOST_LINKS: u32 = 40;

/// How many names are tried for a new file. Each is drawn from 2^64, so one is enough, except in a folder that is made to
/// refuse it.
const MOST_NAMES: u32 = 16;

/// Who may use a new file that stands for an old one, until it gets the old one's permissions.
const OWNER_ALONE: u32 = 0o600;

/// Standard output, as a name of a file.
const STANDARD_OUTPUT: &str = "/proc/self/fd/1";

/// Puts the bytes under the name, whose regular file is replaced by a whole new one or stays as it was, whatever happens.
/// What is there and is no regular file, as a device or a pipe, is written in place.
pub(crate) fn write_file<R: Files + AllocGlobal + RandomSource + Clock>(
    rt: &R,
    name: &str,
    bytes: &[u8],
) -> Result<(), Refused> {
    match fs::metadata(rt, name) {
        Ok(found) if !found.is_file() => write_in_place(rt, name, bytes),
        Ok(found) => replace_file(rt, name, &found, bytes),
        Err(error) if error.kind() == ErrorKind::NotFound => make_file(rt, name, bytes),
        Err(error) => Err(Refused::from(error)),
    }
}

/// Writes the bytes to what is there under the name.
fn write_in_place<R: Files + Clock>(rt: &R, name: &str, bytes: &[u8]) -> Result<(), Refused> {
    let mut file = fs::create(rt, name)?;
    write_bytes(rt, &mut file, bytes)
}

/// Makes a file with the bytes where there is no file yet, or where a link leads to no file.
fn make_file<R: Files + AllocGlobal + RandomSource + Clock>(
    rt: &R,
    name: &str,
    bytes: &[u8],
) -> Result<(), Refused> {
    let path = path_of(rt, name)?;
    put_file(rt, &path, None, bytes)
}

/// Replaces the regular file under the name. Refused where the user may not write it, where it is standard output, and
/// where the name is that of a descriptor: a file that is open may not be taken from who holds it.
fn replace_file<R: Files + AllocGlobal + RandomSource + Clock>(
    rt: &R,
    name: &str,
    found: &Metadata,
    bytes: &[u8],
) -> Result<(), Refused> {
    let path = path_of(rt, name)?;
    if is_standard_output(rt, found) {
        return Err(in_use("standard output goes to it"));
    }
    let _may_be_written = OpenOptions::new().write(true).open(rt, &path)?;
    put_file(rt, &path, Some(found.permissions()), bytes)
}

/// The refusal of a file that someone holds open.
fn in_use(why: &str) -> Refused {
    Refused::Failed(io::Error::new(ErrorKind::ResourceBusy, why))
}

/// Whether the file is the one to which standard output goes.
fn is_standard_output<R: Files>(rt: &R, found: &Metadata) -> bool {
    match fs::metadata(rt, STANDARD_OUTPUT) {
        Ok(output) => is_same(&output, found),
        Err(_unknown) => false,
    }
}

/// Whether two names are those of one file on the disk, whatever links lead there. False where either is not there.
pub fn are_one_file<R: Files>(rt: &R, left: &str, right: &str) -> bool {
    match (fs::metadata(rt, left), fs::metadata(rt, right)) {
        (Ok(left), Ok(right)) => is_same(&left, &right),
        _ => false,
    }
}

/// Whether what was found under two names is one file.
fn is_same(left: &Metadata, right: &Metadata) -> bool {
    left.dev() == right.dev() && left.ino() == right.ino()
}

/// The path of the file itself, to which the links under the name lead, whether it is there or not. Refused where they
/// lead to a descriptor.
fn path_of<R: Files + AllocGlobal>(rt: &R, name: &str) -> Result<PathBuf<Global>, Refused> {
    let mut path = PathBuf::from_str(rt.alloc(), name)?;
    for _ in 0..MOST_LINKS {
        let folder = fs::canonicalize(rt, folder_of(path.as_path()))?;
        if is_folder_of_descriptors(folder.as_str()) {
            return Err(in_use("the name is that of an open file"));
        }
        match fs::read_link(rt, &path) {
            Ok(link) => {
                path.pop();
                path.push(link)?;
            }
            Err(_no_link) => return Ok(path),
        }
    }
    Err(Refused::from(io::Error::from(ErrorKind::FilesystemLoop)))
}

/// The folder in which the path's last part is named.
fn folder_of(path: Path<'_>) -> Path<'_> {
    match path.parent() {
        Some(folder) if !folder.as_str().is_empty() => folder,
        _ => Path::new("."),
    }
}

/// Whether the folder has the descriptors of a process, as `/proc/7/fd` has.
fn is_folder_of_descriptors(folder: &str) -> bool {
    folder.starts_with("/proc/") && folder.ends_with("/fd")
}

/// Writes the bytes to a new file in the same folder, gives it the permissions, and puts it in the path's place. Where
/// this fails the new file goes.
fn put_file<R: Files + AllocGlobal + RandomSource + Clock>(
    rt: &R,
    path: &PathBuf<Global>,
    permissions: Option<Permissions>,
    bytes: &[u8],
) -> Result<(), Refused> {
    let folder = folder_of(path.as_path());
    let (mut file, new_path) = open_new(rt, folder, permissions.is_some())?;
    match fill_and_rename(
        rt,
        &mut file,
        new_path.as_path(),
        path.as_path(),
        permissions,
        bytes,
    ) {
        Ok(()) => {
            sync_folder(rt, folder);
            Ok(())
        }
        Err(refused) => {
            // What can't be removed either stays, under a name of its own.
            let _ = fs::remove_file(rt, &new_path);
            Err(refused)
        }
    }
}

/// A new file in the folder, under a name at which nothing stands, and its path.
fn open_new<R: Files + AllocGlobal + RandomSource + Clock>(
    rt: &R,
    folder: Path<'_>,
    is_private: bool,
) -> Result<(R::File, PathBuf<Global>), Refused> {
    let mut options = OpenOptions::new();
    options.write(true).create_new(true);
    if is_private {
        options.mode(OWNER_ALONE);
    }
    for _ in 0..MOST_NAMES {
        let path = new_path(rt, folder)?;
        match options.open(rt, &path) {
            Ok(file) => return Ok((file, path)),
            Err(error) if error.kind() == ErrorKind::AlreadyExists => {}
            Err(error) => return Err(no_new_file(error)),
        }
    }
    Err(no_new_file(io::Error::from(ErrorKind::AlreadyExists)))
}

/// The refusal of a new file that could not be made.
fn no_new_file(error: io::Error) -> Refused {
    match error.kind() {
        ErrorKind::OutOfMemory => Refused::Memory,
        _ => Refused::NoNewFile(error),
    }
}

/// A path in the folder whose name is drawn: `.sandhi-` and sixteen hexadecimal digits.
fn new_path<R: AllocGlobal + RandomSource>(
    rt: &R,
    folder: Path<'_>,
) -> Result<PathBuf<Global>, Refused> {
    let mut drawn = [0u8; 8];
    rt.fill_bytes(&mut drawn)?;
    let number = u64::from_le_bytes(drawn);
    let name = format!(in rt.alloc(); ".sandhi-{number:016x}")?;
    Ok(folder.join(rt.alloc(), name)?)
}

/// Gives the file its permissions, then its bytes, brings them to the disk, and renames the file.
fn fill_and_rename<R: Files + Clock>(
    rt: &R,
    file: &mut R::File,
    from: Path<'_>,
    to: Path<'_>,
    permissions: Option<Permissions>,
    bytes: &[u8],
) -> Result<(), Refused> {
    if let Some(permissions) = permissions {
        file.set_permissions(permissions)?;
    }
    write_bytes(rt, file, bytes)?;
    file.sync_all()?;
    fs::rename(rt, from, to)?;
    Ok(())
}

/// Brings the folder's new name to the disk, where the user may open the folder. The file is whole whether this succeeds or
/// not.
fn sync_folder<R: Files>(rt: &R, folder: Path<'_>) {
    if let Ok(opened) = fs::open(rt, folder) {
        let _ = opened.sync_all();
    }
}

/// Writes all the bytes. A write that takes no byte is a fault.
fn write_bytes<C: Clock, F: Write>(clock: &C, file: &mut F, bytes: &[u8]) -> Result<(), Refused>
    ensures { OnOk result (Appends (F.contents file.old) (F.contents file.new) bytes.now) }
{
    let mut taken = 0;
    while taken < bytes.len() {
        let count = write_some(clock, file, &bytes[taken..])?;
        taken += count;
    }
    Ok(())
}
