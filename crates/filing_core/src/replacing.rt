//! A new file that takes the place of another one: who reads that goes on over its bytes, and a crash leaves one of them.

ghost use Rattle.std.specs.Prelude.{IfSome};
ghost use Rattle.filing_core.specs.Complaints.{IsJustOpened};

use crate::access::{LockedFile, OWNERS, Opened, known_of, under_lock};
use crate::noting::RefusalNote;
use sentences::Role;
use std::fs::{self, File, Metadata, OpenOptions, Permissions};
use std::io::{self, ErrorKind};
use std::os::unix::fs::{MetadataExt, OpenOptionsExt, PermissionsExt};
use std::path::PathBuf;
use std::rt::Files;

/// The bits of a file's mode that say who may use it, and how.
const PERMISSIONS: u32 = 0o7777;

/// The temporary name of a new file, and the place that it is to have.
#[derive(Drop)]
pub struct Names {
    temporary: PathBuf,
    place: PathBuf,
}

impl Names {
    /// Those of what is to take the place of the file at this path. The temporary one has that file's number, with which who has
    /// its lock is alone: a file of this name is what a stopped command has left.
    fn beside<F: Files<File = File> + AllocGlobal>(
        files: &F,
        path: &str,
        old: &Metadata,
    ) -> io::Result<Names> {
        let place = fs::canonicalize(files, path)?;
        let (device, number) = (old.dev(), old.ino());
        let name = format!(in files.alloc(); ".cvec-{device}-{number}")?;
        let temporary = place
            .as_path()
            .with_file_name(files.alloc(), name.as_str())?;
        Ok(Names { temporary, place })
    }

    /// Makes the file, in the place of one that a stopped command has left. Its owner alone may use it so far.
    fn make<F: Files<File = File>>(&self, files: &F) -> io::Result<File> {
        let mut options = OpenOptions::new();
        options.read(true).write(true).create_new(true).mode(OWNERS);
        match options.open(files, self.temporary.as_path()) {
            Err(error) if error.kind() == ErrorKind::AlreadyExists => {
                fs::remove_file(files, self.temporary.as_path())?;
                options.open(files, self.temporary.as_path())
            }
            made => made,
        }
    }

    /// Takes the file away.
    pub fn withdraw<F: Files<File = File>>(&self, files: &F) {
        let _ = fs::remove_file(files, self.temporary.as_path());
    }

    /// Gives the file its place. Where that can't be, it is taken away.
    pub fn take_place<F: Files<File = File>>(&self, files: &F) -> io::Result<()> {
        let taken = fs::rename(files, self.temporary.as_path(), self.place.as_path());
        if taken.is_err() {
            self.withdraw(files);
        }
        taken
    }
}

/// Whether nothing is lost but its bytes where another file takes this one's place: it has some, and no other name.
fn is_replaceable(old: &Metadata) -> bool {
    old.len() > 0 && old.nlink() == 1
}

/// Locks a new file, and gives it the permissions of the other. Refused also where its owner is another one.
fn resemble(new: &File, old: &Metadata) -> io::Result<()> {
    new.try_lock()?;
    let known = known_of(new)?;
    if known.uid() != old.uid() || known.gid() != old.gid() {
        return Err(ErrorKind::PermissionDenied.into());
    }
    let mode = old.permissions().mode() & PERMISSIONS;
    new.set_permissions(Permissions::from_mode(mode))
}

/// A new file that stands beside another, to take its place once it is a vector.
#[derive(Drop)]
pub struct Replacement<'a> {
    pub opened: Opened<'a>,
    pub names: Names,
}

impl<'a> Replacement<'a> {
    /// A new file, locked, for the place of the one at this path, which is locked too. `None`: no other file can be the same in
    /// all but its bytes.
    pub fn of<F: Files<File = File> + AllocGlobal>(
        files: &F,
        note: &'a RefusalNote,
        path: &str,
        old: &File,
    ) -> Option<Replacement<'a>>
        ensures { IfSome result (λ new. IsJustOpened new.opened.disk) }
    {
        let old = known_of(old).ok()?;
        if !is_replaceable(&old) {
            return None;
        }
        let names = Names::beside(files, path, &old).ok()?;
        let new = names.make(files).ok()?;
        if resemble(&new, &old).is_ok() {
            let lock = LockedFile {
                file: new,
                is_new: true,
            };
            if let Ok(opened) = under_lock(lock, note, Role::File) {
                return Some(Replacement { opened, names });
            }
        }
        names.withdraw(files);
        None
    }
}
