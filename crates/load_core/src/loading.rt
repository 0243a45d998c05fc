//! `load`: growths of many growers.

ghost use Rattle.std.specs.Prelude.{◌≡◌, ◌⊎◌, ◌<◌, ◌≤◌, ◌++◌, ℕ, List, [], Some, length, slice_get, OnOk, IfOk, IfErr, MatchOption, MatchResult, vec_len};
ghost use Rattle.std.specs.Io.KnownBytes as known;
ghost use Rattle.std.specs.Global.{Vec};
ghost use Rattle.block_core.specs.Growth.{Growth};
ghost use Rattle.book_core.specs.declared.seat.Receipt.{Receipt};
ghost use Rattle.directory_core.specs.Chain.{grown_records};
ghost use Rattle.vault_core.specs.Vault.{list_of};
ghost use Rattle.files_core.specs.Ended.{EndsAs, WritesText};
ghost use Rattle.load_core.specs.Dealt.{behind_slice, slice_of};
ghost use Rattle.load_core.specs.Loading.{IsFirstStop, IsGivenUp, IsSlice, AreDealt, AreDealtBy, AllMade, StandBehind, IsGrowthStop, HasLoadedOn, HasLoadedSoFar, IsLoaded, IsLoadRefusal};
ghost use Rattle.files_core.specs.Opened.{IsOpenedOn};
ghost use Rattle.files_core.specs.Texts.{loaded_line};

use crate::appended::none_appended;
use crate::crewing::Deck;
use book_core::GrowFault;
use crew_core::{CrewFault, Crewed, Gate, Source, crew};
use disk_core::Disk;
use files_core::{Appended, Ended, FileFault, Stopped};
use flush_core::Flusher;
use pen_core::PenFault;
use record_core::Record;
use segment_core::Growths;
use std::alloc::Global;
use std::io;
use std::io::Write;
use std::sync::Wait;
use std::thread::Threads;
use text_core::{write_line, write_numbered};
use vault_core::{Gathering, Vault, VaultFault};

fn write_loaded<W: Write>(writer: &mut W, growths: u64, size: u64) -> io::Result<()>
    ensures { OnOk result (known.Appends (W.contents writer.old) (W.contents writer.new) (loaded_line growths size)) }
{
    write_numbered(writer, b"loaded ", growths)?;
    write_numbered(writer, b" growths, size ", size)?;
    write_line(b"", writer)
}

/// Why a grower stopped that has made so many of its growths, if it did.
fn stop_of(fault: Option<GrowFault>, made: u64, count: u64) -> Option<GrowFault>
    ensures { MatchOption result (count ≤ made) (λ stop. (fault ≡ Some stop) ⊎ ((stop ≡ GrowFault.Closed) × (made < count))) }
{
    match fault {
        Some(fault) => Some(fault),
        None if made < count => Some(GrowFault::Closed),
        None => None,
    }
}

/// The first grower, by its number, that made fewer growths than its source names for it, or had a fault. So many lines come
/// before the source's.
fn first_stopped<R: Record, D: Disk, S: Source<R>>(
    crewed: &Crewed<R, D>,
    source: &S,
    before: u64,
) -> Option<Stopped>
    requires { (vec_len crewed.now.receipts ≡ S.growers_of source.now) × (vec_len crewed.now.faults ≡ S.growers_of source.now) }
    ensures { MatchOption result
        ((k : ℕ) → k < S.growers_of source.now → (its : Vec Receipt) → slice_get crewed.now.receipts.items k ≡ Some its → S.count_of source.now k ≤ length its.items)
        (λ stopped. (stopped.size ≡ length (list_of crewed.now.vault)) × IsFirstStop before (S.growers_of source.now) (S.count_of source.now) crewed.now.receipts.items crewed.now.faults.items stopped) }
{
    let growers = source.growers();
    for grower in 0..growers {
        let made = crewed.receipts[grower as usize].as_slice().len() as u64;
        let count = source.count(grower) as u64;
        let Some(fault) = stop_of(crewed.faults[grower as usize], made, count) else {
            continue;
        };
        return Some(Stopped {
            grower,
            line: made
                .saturating_mul(growers as u64)
                .saturating_add(grower as u64 + 1)
                .saturating_add(before),
            fault,
            size: crewed.vault.len(),
        });
    }
    None
}

/// The flusher of a phase that wasn't ended.
fn flusher_of<R: Record, D: Disk>(gathering: Gathering<R, D>) -> Flusher<R, D>
    ensures { result ≡ gathering.flusher }
{
    gathering.flusher
}

/// The disk of a phase that wasn't ended, and why it wasn't.
fn left_of<R: Record, D: Disk>(gathering: Gathering<R, D>) -> (D, FileFault)
    ensures { (result.0 ≡ gathering.flusher.pen.disk) × (result.1 ≡ FileFault.Vault gathering.fault) }
{
    let fault = gathering.fault;
    let (disk, _settled) = flusher_of(gathering).into_parts();
    (disk, FileFault::Vault(fault))
}

/// The disk of a crew that gave no vault, and why it gave none.
fn give_up<R: Record, D: Disk>(fault: CrewFault<R, D>) -> (D, FileFault)
    ensures { IsGivenUp fault result.0 result.1 }
{
    match fault {
        CrewFault::Share(vault, fault) => (vault.into_disk(), FileFault::Vault(fault)),
        CrewFault::Gather(gathering) => left_of(gathering),
    }
}

/// The vault of a crew that made all growths of its source; else the disk, and the first grower that stopped.
fn all_made<R: Record, D: Disk, S: Source<R>>(
    crewed: Crewed<R, D>,
    source: &S,
    before: u64,
) -> Result<Vault<R, D>, (D, FileFault)>
    requires { (vec_len crewed.receipts ≡ S.growers_of source.now) × (vec_len crewed.faults ≡ S.growers_of source.now) }
    ensures made { IfOk result (λ new. (new ≡ crewed.vault)
        × ((k : ℕ) → k < S.growers_of source.now → (its : Vec Receipt) → slice_get crewed.receipts.items k ≡ Some its → S.count_of source.now k ≤ length its.items)) }
    ensures stopped { IfErr result (λ r. (r.0 ≡ crewed.vault.pen.disk)
        × ((stopped : Stopped) × (r.1 ≡ FileFault.Grower stopped) × (stopped.size ≡ length (list_of crewed.vault))
        × IsFirstStop before (S.growers_of source.now) (S.count_of source.now) crewed.receipts.items crewed.faults.items stopped)) }
{
    match first_stopped(&crewed, source, before) {
        None => Ok(crewed.vault),
        Some(stopped) => Err((crewed.vault.into_disk(), FileFault::Grower(stopped))),
    }
}

/// Appends the growths that a source deals to a vault, by a crew, behind so many lines. Gives the vault back where all were
/// made.
fn grow_dealt<R: Record, S: Source<R>, D: Disk + Send + Drop, G: Gate, E: Threads + Wait + Sync>(
    rt: &E,
    alloc: Global,
    vault: Vault<R, D>,
    source: &S,
    gate: &G,
    before: u64,
) -> Result<Vault<R, D>, (D, FileFault)>
    ensures grown { (growths : List (List R)) → (growers : ℕ) → AreDealtBy growths growers (S.growers_of source.now) (S.count_of source.now) (S.block_of source.now)
        → IfOk result (λ new. (made : List (Growth R)) × AreDealt growths growers made × AllMade growths growers made
        × StandBehind R.form D.keeps D.states vault new.pen.disk made × (list_of new ≡ list_of vault ++ grown_records made)) }
    ensures stopped { (growths : List (List R)) → (growers : ℕ) → IsSlice growers growths → AreDealtBy growths growers (S.growers_of source.now) (S.count_of source.now) (S.block_of source.now)
        → IfErr result (λ r. IsGrowthStop R.form D.keeps D.states before growths growers vault r.0 r.1) }
{
    match crew(rt, alloc, vault, source, gate) {
        Ok(crewed) => all_made(crewed, source, before),
        Err(fault) => Err(give_up(fault)),
    }
}

/// Appends the slice of a deck to a vault behind what is told, by a phase, and tells it. Gives the vault back where all of it
/// was made.
fn load_slice<R: Record, S: Deck<R>, D: Disk + Send + Drop, G: Gate, E: Threads + Wait + Sync>(
    rt: &E,
    alloc: Global,
    vault: Vault<R, D>,
    deck: &S,
    gate: &G,
    appended: &mut Appended,
) -> Result<Vault<R, D>, (D, FileFault)>
    requires { AreDealtBy (slice_of (S.growers_of deck.now) (S.left_of deck.now)) (S.growers_of deck.now) (S.growers_of deck.now) (S.count_of deck.now) (S.block_of deck.now) }
    ensures { (disk : D) → HasLoadedSoFar R.form D.keeps D.states D.faults (S.growths_of deck.now) (S.growers_of deck.now) disk vault (S.left_of deck.now) appended.old
        → MatchResult result
        (λ new. HasLoadedOn R.form D.keeps D.states D.faults (S.growths_of deck.now) (S.growers_of deck.now) disk new (behind_slice (S.growers_of deck.now) (S.left_of deck.now)) appended.new)
        (λ r. IsLoadRefusal R.form D.keeps D.states D.faults (S.growths_of deck.now) (S.growers_of deck.now) disk r.0 appended.new r.1) }
{
    let vault = grow_dealt(rt, alloc, vault, deck, gate, appended.lines)?;
    let growths = deck.dealt_so_far();
    *appended = Appended {
        growths,
        lines: growths,
        size: vault.len(),
    };
    Ok(vault)
}

/// Appends the growths of a deck to a vault, a phase for each slice, and tells those of the phases that made all of theirs.
fn load_slices<
    R: Record,
    S: Deck<R> + Drop,
    D: Disk + Send + Drop,
    G: Gate,
    E: Threads + Wait + Sync,
>(
    rt: &E,
    alloc: Global,
    vault: Vault<R, D>,
    deck: S,
    gate: &G,
    appended: &mut Appended,
) -> Result<Vault<R, D>, (D, FileFault)>
    requires { AreDealtBy (slice_of (S.growers_of deck) (S.left_of deck)) (S.growers_of deck) (S.growers_of deck) (S.count_of deck) (S.block_of deck) }
    ensures { (disk : D) → HasLoadedSoFar R.form D.keeps D.states D.faults (S.growths_of deck) (S.growers_of deck) disk vault (S.left_of deck) appended.old
        → MatchResult result
        (λ new. HasLoadedOn R.form D.keeps D.states D.faults (S.growths_of deck) (S.growers_of deck) disk new [] appended.new)
        (λ r. IsLoadRefusal R.form D.keeps D.states D.faults (S.growths_of deck) (S.growers_of deck) disk r.0 appended.new r.1) }
{
    let mut deck = deck;
    let mut vault = load_slice(rt, alloc, vault, &deck, gate, appended)?;
    while deck.go_on() {
        vault = load_slice(rt, alloc, vault, &deck, gate, appended)?;
    }
    Ok(vault)
}

/// Appends growths to the vault of a file that was opened, by phases of so many growers, and tells those of the phases that
/// made all of theirs.
fn load_dealt<
    R: Record,
    S: Deck<R> + Drop,
    D: Disk + Send + Drop,
    G: Gate,
    E: Threads + Wait + Sync,
>(
    rt: &E,
    alloc: Global,
    vault: Vault<R, D>,
    growths: Growths<R>,
    growers: u16,
    gate: &G,
) -> (Appended, Result<Vault<R, D>, (D, FileFault)>)
    ensures { (disk : D) → IsOpenedOn R.form D.keeps D.states D.faults disk vault
        → MatchResult result.1
        (λ new. HasLoadedOn R.form D.keeps D.states D.faults growths.0 growers disk new [] result.0)
        (λ r. IsLoadRefusal R.form D.keeps D.states D.faults growths.0 growers disk r.0 result.0 r.1) }
{
    let mut appended = none_appended(vault.len());
    match S::deal(growths, growers) {
        Some(deck) => {
            let loaded = load_slices(rt, alloc, vault, deck, gate, &mut appended);
            (appended, loaded)
        }
        None => {
            let fault = VaultFault::Pen(PenFault::TooLarge);
            (appended, Err((vault.into_disk(), FileFault::Vault(fault))))
        }
    }
}

/// Gives the disk back of a vault to which so many growths were appended, and writes that.
fn tell_loaded<R: Record, D: Disk, W: Write>(
    vault: Vault<R, D>,
    appended: Appended,
    writer: &mut W,
) -> (D, Ended)
    ensures disk { result.0 ≡ vault.pen.disk }
    ensures done { (result.1 ≡ Ended.Done) ⊎ (result.1 ≡ Ended.OutputFailed) }
    ensures writes { WritesText (W.contents writer.old) (W.contents writer.new) (loaded_line appended.growths appended.size) result.1 }
{
    let written = write_loaded(writer, appended.growths, appended.size);
    (vault.into_disk(), Ended::told(written))
}

/// Appends growths to the vault of a file that was opened, and writes that.
fn load_opened<
    R: Record,
    S: Deck<R> + Drop,
    D: Disk + Send + Drop,
    W: Write,
    G: Gate,
    E: Threads + Wait + Sync,
>(
    rt: &E,
    alloc: Global,
    vault: Vault<R, D>,
    growths: Growths<R>,
    growers: u16,
    gate: &G,
    writer: &mut W,
) -> (D, Appended, Ended)
    ensures loaded { (disk : D) → IsOpenedOn R.form D.keeps D.states D.faults disk vault → EndsAs
        (IsLoaded R.form D.keeps D.states growths.0 growers disk result.0 result.1)
        (IsLoadRefusal R.form D.keeps D.states D.faults growths.0 growers disk result.0 result.1) result.2 }
    ensures writes { WritesText (W.contents writer.old) (W.contents writer.new) (loaded_line result.1.growths result.1.size) result.2 }
{
    let (appended, loaded) = load_dealt::<R, S, D, G, E>(rt, alloc, vault, growths, growers, gate);
    match loaded {
        Ok(vault) => {
            let (disk, ended) = tell_loaded(vault, appended, writer);
            (disk, appended, ended)
        }
        Err((disk, fault)) => (disk, appended, Ended::Refused(fault)),
    }
}

/// Appends growths to the file's vector by a crew of so many growers, growth `k`, counted from 0, by grower `k` modulo their
/// number, and writes `loaded G growths, size S` once all of them are settled. A phase takes as many growths as it has room
/// for, and is ended before the next one begins: so `Appended` tells of the first growths, those of the phases that made all of
/// theirs, each of a line. Each growth is asked and told by the gate, by many threads at once, and its number and its receipt's
/// count from 0 in each phase; a grower that it stops has the fault `Closed`. `S` is `Dealt` of the record.
///
/// Refused: `Open`; then `Vault`, as `share` or `gather` is, `TooLarge` for no grower, or more than 64: what is told stands,
/// and of the phase at hand some growths may; `Grower`, with the first fault by grower: the growths that were made stand then.
pub fn load<
    R: Record,
    S: Deck<R> + Drop,
    D: Disk + Send + Drop,
    W: Write,
    G: Gate,
    E: Threads + Wait + Sync,
>(
    rt: &E,
    alloc: Global,
    disk: D,
    growths: Growths<R>,
    growers: u16,
    gate: &G,
    writer: &mut W,
) -> (D, Appended, Ended)
    ensures loaded { EndsAs
        (IsLoaded R.form D.keeps D.states growths.0 growers disk result.0 result.1)
        (IsLoadRefusal R.form D.keeps D.states D.faults growths.0 growers disk result.0 result.1) result.2 }
    ensures writes { WritesText (W.contents writer.old) (W.contents writer.new) (loaded_line result.1.growths result.1.size) result.2 }
{
    match Vault::<R, D>::open(alloc, disk) {
        Ok(vault) => load_opened::<R, S, D, W, G, E>(
            rt, alloc, vault, growths, growers, gate, writer,
        ),
        Err((disk, fault)) => {
            let ended = Ended::Refused(FileFault::Open(fault));
            (disk, none_appended(0), ended)
        }
    }
}
