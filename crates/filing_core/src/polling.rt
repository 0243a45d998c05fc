//! What `follow` does between two looks.

ghost use Rattle.std.specs.Prelude.{◌≡◌, ◌⊎◌, IfErr, IfOk};
ghost use Rattle.filing_core.specs.Beside.{IsJustShared, looks_asked};
ghost use Rattle.filing_core.specs.Complaints.{IsUnopened};

use crate::access::{known_of, open_to_read, shared};
use disk_core::SharedFile;
use follow_core::{Pause, Rest};
use sentences::{BesideFault, Complaint, Role};
use std::fs::{self, File, Metadata};
use std::io::{self, ErrorKind};
use std::os::unix::fs::MetadataExt;
use std::rt::Files;
use std::thread;
use std::time::{Clock, Duration};

/// How often a file is looked at.
#[derive(Clone, Copy)]
pub enum Looks {
    /// One time.
    Once,
    /// Again and again, so many milliseconds apart.
    Each(u64),
}

/// The looks that the words of `follow` ask for.
pub fn looks_of(poll: u64, once: bool) -> Looks
    ensures { result ≡ looks_asked poll once }
{
    if once { Looks::Once } else { Looks::Each(poll) }
}

/// What became of a file's name and length.
#[derive(Clone, Copy)]
enum Standing {
    /// The name leads to the file, which has not become shorter.
    Same,
    /// The name leads to another file, or to none.
    Replaced,
    /// The file has become shorter, as no pen makes it.
    Cut,
}

/// Sleeps between two looks, and then asks whether the name still leads to the file that was opened, and whether that hasn't
/// become shorter. Once the name leads elsewhere there is one more look, for what the file got before.
#[derive(Drop)]
pub struct Polling<'a, F> {
    files: &'a F,
    path: &'a str,
    pub(crate) looks: Looks,
    /// The system's numbers of the file.
    device: u64,
    inode: u64,
    /// The greatest length that the file was seen to have, in bytes.
    len: u64,
    standing: Standing,
}

/// Opens the file at this path to be read, and asks for what the system knows of it.
fn open_known<F: Files<File = File>>(files: &F, path: &str) -> io::Result<(File, Metadata)> {
    let file = open_to_read(files, path)?;
    let metadata = known_of(&file)?;
    Ok((file, metadata))
}

/// Opens the file at this path, which another process may write meanwhile, and what it is to be looked at by. It takes no
/// lock. Refused where it can't be opened.
pub fn open_polled<'a, F: Files<File = File>>(
    files: &'a F,
    path: &'a str,
    looks: Looks,
) -> Result<(SharedFile, Polling<'a, F>), Complaint>
    ensures opened { IfOk result (λ opened. IsJustShared opened.0) }
    ensures looks { IfOk result (λ opened. opened.1.looks ≡ looks) }
    ensures shut { IfErr result (IsUnopened Role.File) }
{
    let (file, metadata) = match open_known(files, path) {
        Ok(known) => known,
        Err(error) => return Err(Complaint::NotOpened(Role::File, error)),
    };
    let polling = Polling {
        files,
        path,
        looks,
        device: metadata.dev(),
        inode: metadata.ino(),
        len: metadata.len(),
        standing: Standing::Same,
    };
    Ok((shared(file), polling))
}

impl<'a, F: Files<File = File> + Clock> Polling<'a, F> {
    /// Whether these are what the system knows of the file that was opened, and how it stands.
    fn standing_by(&mut self, metadata: &Metadata) -> Standing
        ensures { self.new.looks ≡ self.old.looks }
    {
        if metadata.dev() != self.device || metadata.ino() != self.inode {
            return Standing::Replaced;
        }
        if metadata.len() < self.len {
            return Standing::Cut;
        }
        self.len = metadata.len();
        Standing::Same
    }

    /// How the file stands by its name. Where the system doesn't say, it stands as before.
    fn ask(&mut self) -> Standing
        ensures { self.new.looks ≡ self.old.looks }
    {
        match fs::metadata(self.files, self.path) {
            Ok(metadata) => self.standing_by(&metadata),
            Err(error) => match error.kind() {
                ErrorKind::NotFound | ErrorKind::NotADirectory => Standing::Replaced,
                _ => Standing::Same,
            },
        }
    }

    /// Sleeps for so many milliseconds, and asks how the file stands then.
    fn sleep(&mut self, millis: u64) -> Rest
        ensures goes_on { (result ≡ Rest.GoOn) ⊎ (result ≡ Rest.Replaced) }
        ensures same { self.new.looks ≡ self.old.looks }
    {
        thread::sleep(self.files, Duration::from_millis(millis));
        self.standing = self.ask();
        match self.standing {
            Standing::Cut => Rest::Replaced,
            Standing::Same | Standing::Replaced => Rest::GoOn,
        }
    }

    /// Why it isn't the same file any more.
    pub fn parting(&self) -> BesideFault
        ensures { (result ≡ BesideFault.Replaced) ⊎ (result ≡ BesideFault.Cut) }
    {
        match self.standing {
            Standing::Cut => BesideFault::Cut,
            Standing::Same | Standing::Replaced => BesideFault::Replaced,
        }
    }
}

impl<'a, F: Files<File = File> + Clock> Pause for Polling<'a, F> {
    ghost use Rattle.filing_core.specs.Beside.{MayRest};

    ghost may_answer = { λ polling. MayRest polling.looks };

    fn rest(&mut self) -> Rest {
        match (self.looks, self.standing) {
            (Looks::Once, _) => Rest::End,
            (Looks::Each(_), Standing::Replaced | Standing::Cut) => Rest::Replaced,
            (Looks::Each(millis), Standing::Same) => self.sleep(millis),
        }
    }
}
