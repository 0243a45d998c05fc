//! What stands on a disk is scanned: read piece by piece, each fed to a scanner.

ghost use Rattle.std.specs.Prelude.{◌≡◌, ◌⊎◌, ◌≤◌, ◌<◌, ◌+◌, ◌-◌, ◌^◌, ◌++◌, [], ℕ, List, length, take, OnOk, IfOk, IfErr, MatchResult};
ghost use Rattle.disk_core.specs.Fault.{CountsFailures};
ghost use Rattle.disk_core.specs.State.{now, IsImage};
ghost use Rattle.disk_core.specs.Calls.{bytes_of, Stays};
ghost use Rattle.disk_core.specs.Moments.{LeavesOnly, clock};
ghost use Rattle.record_core.specs.Bytes.{IsBytes};
ghost use Rattle.segment_core.specs.Scanned.{IsScanOf};
ghost use Rattle.segment_core.specs.Scanner.{IsFed, IsLost};
ghost use Rattle.pen_core.specs.Opening.{OnlySyncs, IsOpenRefusal, IsReadFault, HasTaken, HasScanned, HasReadDisk, IsFoundOn, failed_openings, reads_of, AreCallsDoneBy, AreCallsMadeBy, AreNeeded};
ghost use Rattle.pen_core.specs.Opening.{AreReadsMade, ReadsByPieces};

use crate::fault::OpenFault;
use disk_core::{Disk, DiskFault};
use record_core::Record;
use segment_core::{Homes, ScanFault, Scanned, Scanner};
use std::alloc::Global;

/// Feeds a piece to the scanner.
fn take_piece<R: Record>(scanner: &mut Scanner<R>, piece: &[u8]) -> Result<(), OpenFault>
    requires { (image : List ℕ) × IsFed R.form image scanner.old × (length image + length piece.now < 2 ^ 64) }
    ensures bytes { IsBytes piece.now }
    ensures fed { (image : List ℕ) → IsFed R.form image scanner.old → IsFed R.form (image ++ piece.now) scanner.new }
    ensures memory { IfErr result (λ fault. (fault ≡ OpenFault.Scan ScanFault.Memory) × IsLost scanner.new) }
    ensures lost { OnOk result (IsLost scanner.old → ⊥) }
{
    match scanner.feed(piece) {
        Ok(()) => Ok(()),
        Err(fault) => Err(OpenFault::Scan(fault)),
    }
}

/// Reads the bytes that stand on the disk from `at` on, as many as the piece has, and feeds them to the scanner.
fn feed_piece<D: Disk, R: Record>(
    disk: &mut D,
    at: u64,
    piece: &mut [u8],
    scanner: &mut Scanner<R>,
) -> Result<(), OpenFault>
    requires inside { D.keeps disk.old → at + length piece.old ≤ length (bytes_of (D.states disk.old)) }
    requires fits { at + length piece.old < 2 ^ 64 }
    requires taken { HasTaken R.form (D.keeps disk.old) (bytes_of (D.states disk.old)) at scanner.old }
    ensures more { OnOk result (HasTaken R.form (D.keeps disk.new) (bytes_of (D.states disk.old)) (at + length piece.old) scanner.new) }
    ensures refused { D.keeps disk.new → IfErr result (λ fault. (more : List ℕ)
        → IsOpenRefusal R.form (take (at + length piece.old) (bytes_of (D.states disk.old)) ++ more) fault) }
    ensures same { D.keeps disk.new → Stays (D.states disk.old) (D.states disk.new) }
    ensures time { clock (D.states disk.new) ≡ clock (D.states disk.old) + 1 }
    ensures cause { IfErr result IsReadFault }
    ensures lost { OnOk result (IsLost scanner.old → ⊥) }
    ensures memory { IfErr result (λ fault. (fault ≡ OpenFault.Scan ScanFault.Memory) ⊎ (fault ≡ OpenFault.Disk DiskFault.Read)) }
    ensures faults { CountsFailures failed_openings (D.faults disk.old) (D.faults disk.new) result }
    ensures model { D.keeps disk.new → D.keeps disk.old }
{
    if let Err(fault) = disk.read_at(at, piece) {
        return Err(OpenFault::Disk(fault));
    }
    take_piece(scanner, piece)
}

/// Feeds the first bytes of the disk to the scanner, so many, a piece after the other, up to where no more can change
/// its answer.
fn feed_all<D: Disk, R: Record>(
    disk: &mut D,
    len: u64,
    piece: &mut [u8],
    scanner: &mut Scanner<R>,
) -> Result<(), OpenFault>
    requires some { 0 < length piece.old }
    requires length { D.keeps disk.old → len ≤ length (bytes_of (D.states disk.old)) }
    requires begun { IsFed R.form [] scanner.old }
    ensures read { OnOk result (HasScanned R.form (D.keeps disk.new) (bytes_of (D.states disk.old)) len scanner.new) }
    ensures refused { D.keeps disk.new → IfErr result (λ fault. (more : List ℕ)
        → IsOpenRefusal R.form (take len (bytes_of (D.states disk.old)) ++ more) fault) }
    ensures same { D.keeps disk.new → now (D.states disk.new) ≡ now (D.states disk.old) }
    ensures images { D.keeps disk.new → LeavesOnly (D.states disk.old) (D.states disk.new) (IsImage (now (D.states disk.old))) }
    ensures time { MatchResult result
        (λ _. (clock (D.states disk.old) ≤ clock (D.states disk.new)) × (clock (D.states disk.new) ≤ clock (D.states disk.old) + reads_of (length piece.old) len))
        (λ _. (clock (D.states disk.old) < clock (D.states disk.new)) × (clock (D.states disk.new) ≤ clock (D.states disk.old) + reads_of (length piece.old) len)) }
    ensures reads { D.keeps disk.new → len ≡ length (bytes_of (D.states disk.old)) → MatchResult result
        (λ _. AreNeeded (length piece.old) R.form (bytes_of (D.states disk.old)) (clock (D.states disk.new) - clock (D.states disk.old)))
        (λ fault. AreReadsMade (length piece.old) R.form (bytes_of (D.states disk.old)) fault (clock (D.states disk.new) - clock (D.states disk.old))) }
    ensures cause { IfErr result IsReadFault }
    ensures faults { CountsFailures failed_openings (D.faults disk.old) (D.faults disk.new) result }
    ensures model { D.keeps disk.new → D.keeps disk.old }
{
    let mut at: u64 = 0;
    while at < len && !scanner.is_decided() {
        let n = (piece.len() as u64).min(len - at);
        feed_piece(disk, at, &mut piece[..n as usize], scanner)?;
        at += n;
    }
    Ok(())
}

/// Feeds the first bytes that stand on the disk, so many, and a tail behind them to the scanner.
fn feed_front<D: Disk, R: Record>(
    disk: &mut D,
    len: u64,
    tail: &[u8],
    piece: &mut [u8],
    scanner: &mut Scanner<R>,
) -> Result<(), OpenFault>
    requires some { 0 < length piece.old }
    requires length { D.keeps disk.old → len ≤ length (bytes_of (D.states disk.old)) }
    requires fits { len + length tail.now < 2 ^ 64 }
    requires begun { IsFed R.form [] scanner.old }
    ensures fed { D.keeps disk.new → OnOk result (IsFed R.form (take len (bytes_of (D.states disk.old)) ++ tail.now) scanner.new) }
    ensures taken { OnOk result ((image : List ℕ) × IsFed R.form image scanner.new) }
    ensures refused { D.keeps disk.new → IfErr result (IsOpenRefusal R.form (take len (bytes_of (D.states disk.old)) ++ tail.now)) }
    ensures same { D.keeps disk.new → now (D.states disk.new) ≡ now (D.states disk.old) }
    ensures images { D.keeps disk.new → LeavesOnly (D.states disk.old) (D.states disk.new) (IsImage (now (D.states disk.old))) }
    ensures faults { CountsFailures failed_openings (D.faults disk.old) (D.faults disk.new) result }
    ensures model { D.keeps disk.new → D.keeps disk.old }
{
    feed_all(disk, len, piece, scanner)?;
    take_piece(scanner, tail)
}

/// Scans the first bytes that stand on the disk, so many, with a tail behind them. The disk is only read, by as many
/// bytes at a time as the piece has, which is room for them.
pub fn scan_front<D: Disk, R: Record>(
    alloc: Global,
    disk: &mut D,
    len: u64,
    tail: &[u8],
    piece: &mut [u8],
) -> Result<Scanned<R>, OpenFault>
    requires some { 0 < length piece.old }
    requires length { D.keeps disk.old → len ≤ length (bytes_of (D.states disk.old)) }
    requires fits { len + length tail.now < 2 ^ 64 }
    ensures found { D.keeps disk.new → IfOk result (IsScanOf R.form (take len (bytes_of (D.states disk.old)) ++ tail.now)) }
    ensures refused { D.keeps disk.new → IfErr result (IsOpenRefusal R.form (take len (bytes_of (D.states disk.old)) ++ tail.now)) }
    ensures same { D.keeps disk.new → now (D.states disk.new) ≡ now (D.states disk.old) }
    ensures images { D.keeps disk.new → LeavesOnly (D.states disk.old) (D.states disk.new) (IsImage (now (D.states disk.old))) }
    ensures faults { CountsFailures failed_openings (D.faults disk.old) (D.faults disk.new) result }
    ensures model { D.keeps disk.new → D.keeps disk.old }
{
    let mut scanner = Scanner::of_length(alloc, len);
    feed_front(disk, len, tail, piece, &mut scanner)?;
    match scanner.end() {
        Ok(scanned) => Ok(scanned),
        Err(fault) => Err(OpenFault::Scan(fault)),
    }
}

/// Syncs the disk, reads its length, and feeds its bytes to a scanner, up to where no more can change the answer.
fn read_disk<D: Disk, R: Record>(
    alloc: Global,
    disk: &mut D,
    piece: &mut [u8],
) -> Result<Scanner<R>, OpenFault>
    requires some { 0 < length piece.old }
    ensures read { IfOk result (HasReadDisk R.form (D.keeps disk.new) (bytes_of (D.states disk.old)) (D.states disk.new)) }
    ensures refused { D.keeps disk.new → IfErr result (IsOpenRefusal R.form (bytes_of (D.states disk.old))) }
    ensures only_syncs { D.keeps disk.new → OnlySyncs (D.states disk.old) (D.states disk.new) }
    ensures calls { ReadsByPieces R.form (length piece.old) (D.keeps disk.new) (D.states disk.old) (D.states disk.new) result }
    ensures faults { CountsFailures failed_openings (D.faults disk.old) (D.faults disk.new) result }
    ensures model { D.keeps disk.new → D.keeps disk.old }
{
    if let Err(fault) = disk.sync() {
        return Err(OpenFault::Disk(fault));
    }
    let len = match disk.len() {
        Ok(len) => len,
        Err(fault) => return Err(OpenFault::Disk(fault)),
    };
    let mut scanner = Scanner::of_length(alloc, len);
    feed_all(disk, len, piece, &mut scanner)?;
    Ok(scanner)
}

/// Syncs the disk, so that what is read is what a crash leaves, and scans its bytes: reads the length, and the bytes, by
/// as many at a time as the piece has, which is room for them, up to where no more can change the answer. Nothing is
/// written.
pub fn scan_disk<D: Disk, R: Record>(
    alloc: Global,
    disk: &mut D,
    piece: &mut [u8],
) -> Result<(Scanned<R>, Homes), OpenFault>
    requires some { 0 < length piece.old }
    ensures found { D.keeps disk.new → IfOk result (λ found. IsScanOf R.form (bytes_of (D.states disk.old)) found.0) }
    ensures found_on { IfOk result (λ found. IsFoundOn R.form (D.keeps disk.new) (D.states disk.new) found.0 found.1) }
    ensures refused { D.keeps disk.new → IfErr result (IsOpenRefusal R.form (bytes_of (D.states disk.old))) }
    ensures only_syncs { D.keeps disk.new → OnlySyncs (D.states disk.old) (D.states disk.new) }
    ensures time { (len : ℕ) × (D.keeps disk.new → len ≡ length (bytes_of (D.states disk.old))) × MatchResult result
        (λ _. AreCallsDoneBy (length piece.old) len (clock (D.states disk.new) - clock (D.states disk.old)))
        (λ fault. AreCallsMadeBy (length piece.old) len fault (clock (D.states disk.new) - clock (D.states disk.old))) }
    ensures reads { D.keeps disk.new → MatchResult result
        (λ _. AreNeeded (length piece.old) R.form (bytes_of (D.states disk.old)) (clock (D.states disk.new) - clock (D.states disk.old) - 2))
        (λ fault. AreReadsMade (length piece.old) R.form (bytes_of (D.states disk.old)) fault (clock (D.states disk.new) - clock (D.states disk.old) - 2)) }
    ensures faults { CountsFailures failed_openings (D.faults disk.old) (D.faults disk.new) result }
    ensures model { D.keeps disk.new → D.keeps disk.old }
{
    let scanner = read_disk(alloc, disk, piece)?;
    match scanner.end_with() {
        Ok(found) => Ok(found),
        Err(fault) => Err(OpenFault::Scan(fault)),
    }
}
