//! Writes, replaces and deletes the files of a folder. A crash leaves of each file the old bytes or the new ones.
use crate::halt::Halt;
use crate::host::{Host, lock_opened};
use crate::intake::Intake;
use crate::sealed::PART_HEADER;
use crate::watching::{Look, changed};
use mt_record::{PART_HEADER_BYTES, is_sealed_part};
use mt_recover::{Failure, Refusal};
use std::alloc::AllocError;
use std::fs::{self, File, OpenFile, OpenOptions};
use std::io::{self, ErrorKind, Read, Write};
use std::os::unix::fs::{MetadataExt, OpenOptionsExt, chown};
use std::path::{Path, PathBuf};
use std::random::RandomSource;

/// What is added to the path of a file while it is written. No log and no part has such a name.
pub const UNFINISHED: &str = "new";

/// What to try after a failed sync. If it is tried again, it may succeed although bytes are lost.
const AFTER_FAILED_SYNC: &str =
    "restart the machine, so that only what the disk has is read; then run it again";

/// A folder whose files are changed.
#[derive(Drop)]
pub struct Site<'a, R> {
    pub rt: &'a R,
    /// The path of the folder.
    pub folder: &'a str,
    /// What to try after a failure.
    pub advice: &'static str,
}

impl<'a, R: Host> Site<'a, R> {
    /// Refuses what has this name if that is no regular file, or is to be written newly.
    pub fn expect(&self, name: &str, is_new: bool) -> Result<(), Halt<'static>> {
        let path = self.path(name)?;
        let error = match fs::symlink_metadata(self.rt, &path) {
            Err(error) if is_new && error.kind() == ErrorKind::NotFound => return Ok(()),
            Err(error) => error,
            Ok(_) if is_new => io::Error::from(ErrorKind::AlreadyExists),
            Ok(metadata) if metadata.is_file() => return Ok(()),
            Ok(_) => no_file(),
        };
        let (doing, advice) = if is_new {
            ("write", "give that file another name")
        } else {
            ("replace", "put a file in place of it")
        };
        Err(Halt::stuck(self.rt.alloc(), doing, name, error, advice))
    }

    /// Draws the salt of a file of format 4 that is written. If several are, each further one takes the next number, so that no
    /// two have the same.
    pub fn salt(&self) -> Result<u64, Halt<'static>> {
        let mut bytes = [0; 8];
        let drawn = self.rt.fill_bytes(&mut bytes);
        self.tell("read", "random bytes", drawn)?;
        Ok(u64::from_be_bytes(bytes))
    }

    /// Reads the file of this name.
    pub fn read(&self, name: &str) -> Result<Vec<u8>, Halt<'static>> {
        let path = self.path(name)?;
        self.tell("read", name, fs::read(self.rt, &path))
    }

    /// Syncs the bytes of the file of this name.
    pub fn sync_file(&self, name: &str) -> Result<(), Halt<'static>> {
        let path = self.path(name)?;
        self.tell_synced(name, sync_path(self.rt, path.as_str()))
    }

    /// Syncs the names of the folder, and not the bytes of its files.
    pub fn sync(&self) -> Result<(), Halt<'static>> {
        self.tell_synced(self.folder, sync_path(self.rt, self.folder))
    }

    /// Gives the log of this name these bytes, one after the other, in one step. It keeps its owner, its group and its mode.
    /// Refuses if it is not as it was in this look, which came before it was read.
    pub fn replace(
        &self,
        name: &str,
        look: Option<Look>,
        header: &[u8],
        records: &[u8],
        marks: &[u8],
    ) -> Result<(), Halt<'static>> {
        let path = self.path(name)?;
        let written = self.prepare(&path, &path, header, records, marks);
        self.tell("replace", name, written)?;
        if Look::at(self.rt, &path) != look {
            self.give_up(&path);
            return Err(changed(self.rt.alloc(), name));
        }
        self.tell("replace", name, self.rename(&path))
    }

    /// Refuses if the file of this name could not be replaced, as by another user than its owner.
    pub fn expect_replaceable(&self, name: &str) -> Result<(), Halt<'static>> {
        let path = self.path(name)?;
        let begun = self.begin(&path, &path);
        self.give_up(&path);
        match begun {
            Ok(_) => Ok(()),
            Err(error) => self.tell("replace", name, Err(error)),
        }
    }

    /// Leaves of a part its header alone, so that it is broken.
    pub fn spoil(&self, name: &str) -> Result<(), Halt<'static>> {
        let path = self.path(name)?;
        self.tell("replace", name, self.spoil_file(&path))
    }

    /// Deletes the file of this name.
    pub fn delete(&self, name: &str) -> Result<(), Halt<'static>> {
        let path = self.path(name)?;
        self.tell("delete", name, fs::remove_file(self.rt, &path))
    }

    /// Writes a file of this name, in one step, with the owner, the group and the mode of the file `model`, if that is there.
    pub fn write(&self, name: &str, model: &str, bytes: &[u8]) -> Result<(), Halt<'static>> {
        let (path, model) = (self.path(name)?, self.path(model)?);
        self.tell("write", name, self.put(&path, &model, bytes, &[], &[]))
    }

    /// Passes on what became of a step. An error says what could not be done.
    pub fn tell<T: Drop>(
        &self,
        doing: &'static str,
        name: &str,
        outcome: io::Result<T>,
    ) -> Result<T, Halt<'static>> {
        match outcome {
            Ok(value) => Ok(value),
            Err(error) => Err(Halt::stuck(self.rt.alloc(), doing, name, error, self.advice)),
        }
    }

    /// Passes on what became of a sync.
    fn tell_synced(&self, name: &str, outcome: io::Result<()>) -> Result<(), Halt<'static>> {
        match outcome {
            Ok(()) => Ok(()),
            Err(error) => Err(Halt::stuck(self.rt.alloc(), "sync", name, error, AFTER_FAILED_SYNC)),
        }
    }

    /// Returns the path of this name in the folder. Err: out of memory.
    pub fn path(&self, name: &str) -> Result<PathBuf, AllocError> {
        Path::new(self.folder).join(self.rt.alloc(), name)
    }

    /// Leaves of the part of this path its header alone.
    fn spoil_file(&self, path: &PathBuf) -> io::Result<()> {
        let mut header = Vec::new(self.rt.alloc());
        File::open(self.rt, path)?
            .take(PART_HEADER as u64)
            .read_to_end(&mut header)?;
        if !is_sealed_part(&header) {
            header.truncate(PART_HEADER_BYTES);
        }
        self.put(path, path, &header, &[], &[])
    }

    /// Puts a file of these bytes, one after the other, into this path.
    fn put(
        &self,
        path: &PathBuf,
        model: &PathBuf,
        header: &[u8],
        records: &[u8],
        marks: &[u8],
    ) -> io::Result<()> {
        self.prepare(path, model, header, records, marks)?;
        self.rename(path)
    }

    /// Writes a file of these bytes, one after the other, under the unfinished name of this path, and syncs it. If that fails,
    /// it leaves none.
    fn prepare(
        &self,
        path: &PathBuf,
        model: &PathBuf,
        header: &[u8],
        records: &[u8],
        marks: &[u8],
    ) -> io::Result<()> {
        let written = self.write_unfinished(path, model, header, records, marks);
        if written.is_err() {
            self.give_up(path);
        }
        written
    }

    fn write_unfinished(
        &self,
        path: &PathBuf,
        model: &PathBuf,
        header: &[u8],
        records: &[u8],
        marks: &[u8],
    ) -> io::Result<()> {
        let mut file = self.begin(path, model)?;
        file.write_all(header)?;
        file.write_all(records)?;
        file.write_all(marks)?;
        file.sync_all()
    }

    /// Gives the unfinished file of this path, which is synced, its name. If that fails, it leaves none.
    fn rename(&self, path: &PathBuf) -> io::Result<()> {
        let unfinished = path.with_added_extension(self.rt.alloc(), UNFINISHED)?;
        let renamed = fs::rename(self.rt, &unfinished, path);
        if renamed.is_err() {
            self.give_up(path);
        }
        renamed
    }

    /// Deletes the unfinished file of this path. If it stays, it is ignored, as after a crash.
    fn give_up(&self, path: &PathBuf) {
        if let Ok(unfinished) = path.with_added_extension(self.rt.alloc(), UNFINISHED) {
            let _ = fs::remove_file(self.rt, &unfinished);
        }
    }

    /// Begins the file of this path under its unfinished name, in place of one that a crash may have left. It gets the owner,
    /// the group and the mode of the model, if that is there.
    pub fn begin(&self, path: &PathBuf, model: &PathBuf) -> io::Result<R::File> {
        let unfinished = path.with_added_extension(self.rt.alloc(), UNFINISHED)?;
        match fs::remove_file(self.rt, &unfinished) {
            Err(error) if error.kind() != ErrorKind::NotFound => return Err(error),
            _ => {}
        }
        let old = match fs::symlink_metadata(self.rt, model) {
            Ok(old) if old.is_file() => old,
            Ok(_) => return Err(no_file()),
            Err(error) if error.kind() == ErrorKind::NotFound => {
                return File::create_new(self.rt, &unfinished);
            }
            Err(error) => return Err(error),
        };
        // Until it has the owner, no one else may read it.
        let file = OpenOptions::new()
            .write(true)
            .create_new(true)
            .mode(0o600)
            .open(self.rt, &unfinished)?;
        chown(self.rt, &unfinished, Some(old.uid()), Some(old.gid()))?;
        file.set_permissions(old.permissions())?;
        Ok(file)
    }

    /// Syncs a file that was begun, and gives it its name.
    pub fn finish(&self, file: R::File, path: &PathBuf) -> io::Result<()> {
        file.sync_all()?;
        self.rename(path)
    }
}

/// Makes the folder of this path, which must not be there, and syncs the folder that it is in.
pub fn make_folder<R: Host>(rt: &R, path: &str) -> Result<(), Halt<'static>> {
    let made = match fs::create_dir(rt, path) {
        Ok(()) => sync_path(rt, parent_of(path)),
        Err(error) => Err(error),
    };
    let advice = match &made {
        Err(error) if error.kind() == ErrorKind::AlreadyExists => {
            "delete it if it is of a checkpoint that stopped: then it has no log.mtl, and is no store; else name another one"
        }
        _ => "name a new folder, in one that can be written",
    };
    match made {
        Ok(()) => Ok(()),
        Err(error) => Err(Halt::stuck(rt.alloc(), "make", path, error, advice)),
    }
}

/// What to try if a file cannot be written into a path.
const FOR_PATH: &str = "name a file, in a folder that can be written";

/// Returns the folder that a path is in.
pub fn site_of<'t, R: Host>(rt: &'t R, path: &'t str) -> Site<'t, R> {
    Site {
        rt,
        folder: parent_of(path),
        advice: FOR_PATH,
    }
}

/// Locks the folder that a path is in until what is returned is dropped.
pub fn lock_path<R: Host>(rt: &R, path: &str) -> Result<R::File, Halt<'static>> {
    let site = site_of(rt, path);
    let folder = site.tell("write", path, File::open(rt, site.folder))?;
    lock_opened(rt, site.folder, folder, false)
}

/// Looks at the file of this path. None: none is there.
pub fn look_at_path<R: Host>(rt: &R, path: &str) -> Result<Option<Look>, AllocError> {
    let target = Path::new("").join(rt.alloc(), path)?;
    Ok(Look::at(rt, &target))
}

/// Refuses if the file of this path is not as it was in this look.
pub fn expect_path<R: Host>(rt: &R, path: &str, look: Option<Look>) -> Result<(), Halt<'static>> {
    if look_at_path(rt, path)? != look {
        return Err(changed(rt.alloc(), path));
    }
    Ok(())
}

/// Begins a file that is to get this path, as `Site::begin` does. Refuses if that would delete the file `input`.
pub fn begin_path<R: Host>(rt: &R, path: &str, input: &str) -> Result<R::File, Halt<'static>> {
    let target = Path::new("").join(rt.alloc(), path)?;
    let unfinished = target.with_added_extension(rt.alloc(), UNFINISHED)?;
    if are_one(rt, &unfinished, input) {
        let reason = io::Error::new(
            ErrorKind::AlreadyExists,
            "FILE has the name that OUT has until it is whole",
        );
        let advice = "give FILE a name that does not end in .new";
        return Err(Halt::stuck(rt.alloc(), "write", path, reason, advice));
    }
    let site = site_of(rt, path);
    site.tell("write", path, site.begin(&target, &target))
}

/// Gives a file that was begun this path, in one step, and syncs the folder that it is in. A file that has the same bytes stays as
/// it is. Refuses if the file that is there is not as it was in this look.
pub fn finish_path<R: Host>(
    rt: &R,
    path: &str,
    look: Option<Look>,
    file: R::File,
) -> Result<(), Halt<'static>> {
    let target = Path::new("").join(rt.alloc(), path)?;
    let site = site_of(rt, path);
    if has_same_bytes(rt, &target).unwrap_or(false) {
        site.give_up(&target);
        site.tell_synced(path, sync_path(rt, path))?;
        return site.sync();
    }
    site.tell("write", path, file.sync_all())?;
    if let Err(halt) = expect_path(rt, path, look) {
        site.give_up(&target);
        return Err(halt);
    }
    site.tell("write", path, site.rename(&target))?;
    site.sync()
}

/// Returns whether a file has the bytes that its unfinished one has. Err: one of them is not there, read error, or out of memory.
fn has_same_bytes<R: Host>(rt: &R, path: &PathBuf) -> io::Result<bool> {
    let unfinished = path.with_added_extension(rt.alloc(), UNFINISHED)?;
    let mut old = Intake::of(rt.alloc(), File::open(rt, path)?, 1)?;
    let mut new = Intake::of(rt.alloc(), File::open(rt, &unfinished)?, 1)?;
    for _ in 0..u64::MAX {
        if old.held.as_slice() != new.held.as_slice() {
            return Ok(false);
        }
        if old.held.is_empty() {
            break;
        }
        let size = old.held.len();
        old.pass(size);
        new.pass(size);
        old.read(1)?;
        new.read(1)?;
    }
    Ok(true)
}

/// Deletes a file that was begun for this path, and returns why it is not written.
pub fn give_up_path<'a, R: Host>(rt: &R, path: &str, halt: Halt<'a>) -> Halt<'a> {
    if let Ok(target) = Path::new("").join(rt.alloc(), path) {
        site_of(rt, path).give_up(&target);
    }
    match halt {
        Halt::Refused(
            Refusal {
                failure: Failure::Output,
                reason: Some(error),
            },
        ) => Halt::stuck(rt.alloc(), "write", path, error, FOR_PATH),
        halt => halt,
    }
}

/// Returns whether both paths lead to one file.
fn are_one<R: Host>(rt: &R, path: &PathBuf, other: &str) -> bool {
    match (fs::metadata(rt, path), fs::metadata(rt, other)) {
        (Ok(one), Ok(other)) => one.dev() == other.dev() && one.ino() == other.ino(),
        _ => false,
    }
}

/// Returns that something else than a file is there.
pub fn no_file() -> io::Error {
    io::Error::new(ErrorKind::Unsupported, "it is no regular file")
}

/// Syncs the file or the folder of this path.
fn sync_path<R: Host>(rt: &R, path: &str) -> io::Result<()> {
    File::open(rt, path)?.sync_all()
}

/// Returns the path of the folder that a path is in.
fn parent_of(path: &str) -> &str {
    match Path::new(path).parent() {
        Some(parent) if !parent.as_str().is_empty() => parent.as_str(),
        _ => ".",
    }
}
