//! Disks over real files.
use disk_core::{Disk, DiskFault, FileDisk};
use std::fs::{self, File, OpenFile, OpenOptions, Permissions};
use std::mem::size_of;
use std::os::unix::fs::{FileExt, PermissionsExt, symlink};
use std::test::Fail;
use std::{io, thread};

mod halting;
mod watched;

/// Reads inside the length.
pub(super) fn read<D: Disk>(disk: &mut D, at: u64, out: &mut [u8]) -> Result<(), DiskFault> {
    let len = disk.len()?;
    if at > len || len - at < out.len() as u64 {
        return Err(DiskFault::Read);
    }
    disk.read_at(at, out)
}

/// Writes inside the length, or at its end.
fn write<D: Disk>(disk: &mut D, at: u64, bytes: &[u8]) -> Result<(), DiskFault> {
    let len = disk.len()?;
    if at > len || u64::MAX - at < bytes.len() as u64 {
        return Err(DiskFault::Write);
    }
    disk.write_at(at, bytes)
}

#[test]
fn what_proofs_alone_read_takes_no_memory(rt: HostRuntime) {
    assert_eq!(rt; size_of::<FileDisk>(), size_of::<(File, bool)>());
}

/// Whether a file has just these bytes.
fn has_bytes(rt: &HostRuntime, path: &str, want: &[u8]) -> Result<bool, Fail> {
    Ok(fs::read(rt, path)?.as_slice() == want)
}

/// The length of a file that is opened, or made where there is none.
fn len_of_made(rt: &HostRuntime, path: &str) -> Result<u64, Fail> {
    let mut disk = FileDisk::make(rt, path)?;
    Ok(disk.len()?)
}

/// Writes twice, and syncs behind both.
fn write_twice(disk: &mut FileDisk) -> Result<(), DiskFault> {
    write(disk, 0, &[1, 2, 3, 4])?;
    disk.sync()?;
    write(disk, 3, &[5, 6])?;
    disk.sync()
}

fn make_and_write(rt: &HostRuntime, path: &str) -> Result<(), Fail> {
    let mut disk = FileDisk::make(rt, path)?;
    Ok(write_twice(&mut disk)?)
}

/// The length, and three bytes from the second place on.
fn read_three(disk: &mut FileDisk) -> Result<(u64, [u8; 3]), DiskFault> {
    let mut bytes = [0; 3];
    read(disk, 2, &mut bytes)?;
    Ok((disk.len()?, bytes))
}

fn open_and_read(rt: &HostRuntime, path: &str) -> Result<(u64, [u8; 3]), Fail> {
    let mut disk = FileDisk::open(rt, path)?;
    Ok(read_three(&mut disk)?)
}

#[test]
fn a_file_is_made_and_opened_again(rt: HostRuntime) -> Result<(), Fail> {
    let path = "made_and_opened_again";
    let _ = fs::remove_file(&rt, path);
    let before = len_of_made(&rt, path)?;
    make_and_write(&rt, path)?;
    let read = open_and_read(&rt, path)?;
    let written = has_bytes(&rt, path, &[1, 2, 3, 5, 6])?;
    let again = len_of_made(&rt, path)?;
    let kept = has_bytes(&rt, path, &[1, 2, 3, 5, 6])?;
    fs::remove_file(&rt, path)?;
    let found = (before, read, written, again, kept);
    assert_eq!(rt; found, (0, (5, [3, 5, 6]), true, 5, true));
    Ok(())
}

/// Writes past 4 GiB and behind the end, and syncs.
fn write_far(disk: &mut FileDisk) -> Result<(), DiskFault> {
    write(disk, (4 << 30) + 7, &[7, 8])?;
    write(disk, 5 << 30, &[9])?;
    disk.sync()
}

/// A file of 5 GiB of zeros is written to.
fn make_far(rt: &HostRuntime, path: &str) -> Result<(), Fail> {
    File::create(rt, path)?.set_len(5 << 30)?;
    let mut disk = FileDisk::open(rt, path)?;
    Ok(write_far(&mut disk)?)
}

/// The length, and what stands round the place past 4 GiB, and at the same place before.
fn read_far(disk: &mut FileDisk) -> Result<(u64, [u8; 4], [u8; 4]), DiskFault> {
    let mut far = [0; 4];
    let mut near = [0; 4];
    read(disk, (4 << 30) + 6, &mut far)?;
    read(disk, 6, &mut near)?;
    Ok((disk.len()?, far, near))
}

fn open_far(rt: &HostRuntime, path: &str) -> Result<(u64, [u8; 4], [u8; 4]), Fail> {
    let mut disk = FileDisk::open(rt, path)?;
    Ok(read_far(&mut disk)?)
}

/// The byte behind 5 GiB, as std reads it.
fn last_byte(rt: &HostRuntime, path: &str) -> Result<[u8; 1], Fail> {
    let mut last = [0];
    File::open(rt, path)?.read_exact_at(&mut last, 5 << 30)?;
    Ok(last)
}

#[test]
fn places_past_4_gib_are_places_of_their_own(rt: HostRuntime) -> Result<(), Fail> {
    let path = "past_4_gib";
    let _ = fs::remove_file(&rt, path);
    make_far(&rt, path)?;
    let read = open_far(&rt, path)?;
    let last = last_byte(&rt, path)?;
    fs::remove_file(&rt, path)?;
    let want = ((5 << 30) + 1, [0, 7, 8, 0], [0, 0, 0, 0]);
    assert_eq!(rt; (read, last), (want, [9]));
    Ok(())
}

/// Why no disk was opened.
fn kind_of<F: FileExt + OpenFile + Drop>(answer: io::Result<FileDisk<F>>) -> Option<io::ErrorKind> {
    answer.err().map(|error| error.kind())
}

/// Why no file is opened or made where a folder stands, and below one that isn't there.
fn kinds_at(rt: &HostRuntime, folder: &str) -> [Option<io::ErrorKind>; 4] {
    [
        kind_of(FileDisk::open(rt, folder)),
        kind_of(FileDisk::make(rt, folder)),
        kind_of(FileDisk::open(rt, "a_folder/none")),
        kind_of(FileDisk::make(rt, "a_folder/none/none")),
    ]
}

#[test]
fn what_cannot_be_opened_is_refused(rt: HostRuntime) -> Result<(), Fail> {
    let folder = "a_folder";
    let _ = fs::remove_dir_all(&rt, folder);
    fs::create_dir(&rt, folder)?;
    let kinds = kinds_at(&rt, folder);
    let made = fs::exists(&rt, "a_folder/none")?;
    fs::remove_dir_all(&rt, folder)?;
    let is_folder = Some(io::ErrorKind::IsADirectory);
    let missing = Some(io::ErrorKind::NotFound);
    assert_eq!(rt;
        (kinds, made),
        ([is_folder, is_folder, missing, missing], false)
    );
    Ok(())
}

/// Why a disk, and std, don't open a file.
fn kinds_of_both(rt: &HostRuntime, path: &str) -> [Option<io::ErrorKind>; 2] {
    let opened = OpenOptions::new().read(true).write(true).open(rt, path);
    [
        kind_of(FileDisk::open(rt, path)),
        opened.err().map(|error| error.kind()),
    ]
}

/// std's own open tells what this machine refuses to this user.
#[test]
fn what_may_not_be_opened_is_refused(rt: HostRuntime) -> Result<(), Fail> {
    let path = "a_locked_file";
    let _ = fs::remove_file(&rt, path);
    fs::write(&rt, path, b"kept".as_slice())?;
    fs::set_permissions(&rt, path, Permissions::from_mode(0))?;
    let [ours, theirs] = kinds_of_both(&rt, path);
    fs::remove_file(&rt, path)?;
    assert_eq!(rt; ours, theirs);
    Ok(())
}

/// Why a file isn't made in a folder, and why std doesn't open that folder.
fn kinds_in(rt: &HostRuntime, folder: &str, path: &str) -> [Option<io::ErrorKind>; 2] {
    [
        kind_of(FileDisk::make(rt, path)),
        File::open(rt, folder).err().map(|error| error.kind()),
    ]
}

/// A folder may be written and not read: where std can't open it, it can't be synced.
#[test]
fn the_folder_of_a_new_file_is_synced_or_its_error_answered(rt: HostRuntime) -> Result<(), Fail> {
    let folder = "folder_to_sync";
    let _ = fs::remove_dir_all(&rt, folder);
    fs::create_dir(&rt, folder)?;
    let unrefused = kind_of(FileDisk::make(&rt, "folder_to_sync/new"));
    fs::set_permissions(&rt, folder, Permissions::from_mode(0o300))?;
    let [ours, theirs] = kinds_in(&rt, folder, "folder_to_sync/other");
    let made = [
        fs::exists(&rt, "folder_to_sync/new")?,
        fs::exists(&rt, "folder_to_sync/other")?,
    ];
    fs::set_permissions(&rt, folder, Permissions::from_mode(0o700))?;
    fs::remove_dir_all(&rt, folder)?;
    assert_eq!(rt; (unrefused, ours, made), (None, theirs, [true, true]));
    Ok(())
}

/// Makes a file, and writes two bytes.
fn make_two(rt: &HostRuntime, path: &str) -> Result<(), Fail> {
    let mut disk = FileDisk::make(rt, path)?;
    Ok(append(&mut disk, &[1, 2])?)
}

/// Writes at the end, and syncs.
fn append(disk: &mut FileDisk, bytes: &[u8]) -> Result<(), DiskFault> {
    let end = disk.len()?;
    write(disk, end, bytes)?;
    disk.sync()
}

#[test]
fn a_file_is_made_where_a_link_leads(rt: HostRuntime) -> Result<(), Fail> {
    let folder = "links_and_files";
    let _ = fs::remove_dir_all(&rt, folder);
    fs::create_dir_all(&rt, "links_and_files/deep")?;
    symlink(&rt, "deep/file", "links_and_files/link")?;
    make_two(&rt, "links_and_files/link")?;
    let written = has_bytes(&rt, "links_and_files/deep/file", &[1, 2])?;
    let len = len_of_made(&rt, "links_and_files/link")?;
    fs::remove_dir_all(&rt, folder)?;
    assert_eq!(rt; (written, len), (true, 2));
    Ok(())
}

/// Writes a third byte.
fn append_last(mut disk: FileDisk) -> Result<(), DiskFault> {
    append(&mut disk, &[3])
}

#[test]
fn a_disk_over_a_file_goes_to_another_thread(rt: HostRuntime) -> Result<(), Fail> {
    let path = "to_another_thread";
    let _ = fs::remove_file(&rt, path);
    make_two(&rt, path)?;
    let disk = FileDisk::open(&rt, path)?;
    let thread = thread::spawn(&rt, move || append_last(disk))?;
    thread.join(&rt)?;
    let written = has_bytes(&rt, path, &[1, 2, 3])?;
    fs::remove_file(&rt, path)?;
    assert_eq!(rt; written, true);
    Ok(())
}

/// What the calls of a disk answer over a device that takes no writes.
fn answers_of_full(
    rt: &HostRuntime,
    path: &str,
) -> io::Result<(Result<u64, DiskFault>, [Result<(), DiskFault>; 2])> {
    let mut disk = FileDisk::open(rt, path)?;
    let len = disk.len();
    Ok((len, [disk.write_at(0, &[1]), disk.sync()]))
}

#[test]
fn a_device_that_takes_no_writes_fails_each_call_in_its_kind(rt: HostRuntime) -> Result<(), Fail> {
    let answers = answers_of_full(&rt, "/dev/full")?;
    let refused = [Err(DiskFault::Write), Err(DiskFault::Sync)];
    assert_eq!(rt; answers, (Ok(0), refused));
    Ok(())
}
