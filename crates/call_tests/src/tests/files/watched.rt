//! Which folder is synced where a file is made.
ghost use Rattle.std.specs.Prelude.{IsErr};

use super::kind_of;
use disk_core::FileDisk;
use std::alloc::{Allocator, Global};
use std::fs::{Metadata, OpenFile, OpenOptions};
use std::io::{self, Read, Seek, SeekFrom, Write};
use std::os::unix::fs::FileExt;
use std::path::PathBuf;
use std::rt::Files;
use std::sync::atomic::{AtomicU64, Ordering};

/// Files that hold nothing. The path `links/link` is a link to `/deep/target`. How often one folder is synced is
/// counted; it may fail each time.
#[derive(Drop)]
struct CountedFiles<'a> {
    folder: &'a str,
    fails: bool,
    syncs: &'a AtomicU64,
}

#[derive(Drop)]
struct CountedFile<'a> {
    is_folder: bool,
    fails: bool,
    syncs: &'a AtomicU64,
}

fn unsupported<T>() -> io::Result<T>
    ensures { IsErr result }
{
    Err(io::ErrorKind::Unsupported.into())
}

impl<'a> Files for CountedFiles<'a> {
    type File = CountedFile<'a>;

    type Dir = CountedFile<'a>;

    fn open_file(&self, _how: &OpenOptions, path: &str) -> io::Result<CountedFile<'a>> {
        Ok(CountedFile {
            is_folder: path == self.folder,
            fails: self.fails,
            syncs: self.syncs,
        })
    }

    fn open_dir(&self, _path: &str) -> io::Result<CountedFile<'a>> {
        unsupported()
    }

    fn metadata(&self, _path: &str) -> io::Result<Metadata> {
        Ok(Metadata::of_file(0))
    }

    fn symlink_metadata(&self, path: &str) -> io::Result<Metadata> {
        if path == "links/link" {
            Ok(Metadata::of_symlink(12))
        } else {
            Ok(Metadata::of_file(0))
        }
    }

    fn canonicalize<B: Allocator>(&self, alloc: B, _path: &str) -> io::Result<PathBuf<B>> {
        Ok(PathBuf::from_str(alloc, "/deep/target")?)
    }

    fn copy(&self, _from: &str, _to: &str) -> io::Result<u64> {
        unsupported()
    }

    fn rename(&self, _from: &str, _to: &str) -> io::Result<()> {
        unsupported()
    }

    fn remove_file(&self, _path: &str) -> io::Result<()> {
        unsupported()
    }

    fn create_dir(&self, _path: &str) -> io::Result<()> {
        unsupported()
    }

    fn remove_dir(&self, _path: &str) -> io::Result<()> {
        unsupported()
    }

    fn remove_dir_all<B: Allocator>(&self, _alloc: B, _path: &str) -> io::Result<()> {
        unsupported()
    }
}

impl OpenFile for CountedFile<'_> {
    fn metadata(&self) -> io::Result<Metadata> {
        Ok(Metadata::of_file(0))
    }

    fn set_len(&self, _size: u64) -> io::Result<()> {
        unsupported()
    }

    fn sync_all(&self) -> io::Result<()> {
        if self.is_folder {
            self.syncs.fetch_add(1, Ordering::SeqCst);
            if self.fails {
                return Err(io::ErrorKind::StorageFull.into());
            }
        }
        Ok(())
    }

    fn sync_data(&self) -> io::Result<()> {
        Ok(())
    }
}

impl FileExt for CountedFile<'_> {
    fn read_at(&self, _buf: &mut [u8], _offset: u64) -> io::Result<usize> {
        unsupported()
    }

    fn write_at(&self, _buf: &[u8], _offset: u64) -> io::Result<usize> {
        unsupported()
    }
}

impl Read for CountedFile<'_> {
    fn read(&mut self, _buf: &mut [u8]) -> io::Result<usize> {
        unsupported()
    }
}

impl Write for CountedFile<'_> {
    fn write(&mut self, _buf: &[u8]) -> io::Result<usize> {
        unsupported()
    }

    fn flush(&mut self) -> io::Result<()> {
        unsupported()
    }
}

impl Seek for CountedFile<'_> {
    fn seek(&mut self, _to: SeekFrom) -> io::Result<u64> {
        unsupported()
    }
}

/// How often the making of a file syncs this folder, and why no disk was opened.
fn make_watched(
    alloc: Global,
    path: &str,
    folder: &str,
    fails: bool,
) -> (u64, Option<io::ErrorKind>) {
    let syncs = AtomicU64::new(0);
    let watch = CountedFiles {
        folder,
        fails,
        syncs: &syncs,
    };
    let refused = kind_of(FileDisk::make(&(watch, alloc), path));
    (syncs.load(Ordering::SeqCst), refused)
}

/// Files, and the folder of each that is to be synced.
const MADE: [(&str, &str); 5] = [
    ("new", "."),
    ("folder/new", "folder"),
    ("/new", "/"),
    ("a/b/new", "a/b"),
    ("links/link", "/deep"),
];

/// What is answered of each where the sync fails, or where it doesn't.
fn all_watched(alloc: Global, fails: bool) -> [(u64, Option<io::ErrorKind>); 5] {
    MADE.map(|(path, folder)| make_watched(alloc, path, folder, fails))
}

#[test]
fn the_folder_of_a_made_file_is_synced_or_why_not_is_told(rt: HostRuntime) {
    let full = Some(io::ErrorKind::StorageFull);
    let watched = [false, true].map(|fails| all_watched(rt.alloc(), fails));
    assert_eq!(rt; watched, [[(1, None); 5], [(1, full); 5]]);
}
