//! The bytes of a disk in memory at one moment, with what was synced last.
ghost use Rattle.std.specs.Prelude.{◌≡◌, ◌+◌, ◌<◌, ◌≤◌, ◌⊎◌, ◌^◌, [], length, IfOk, OnOk, OnErr};
ghost use Rattle.disk_core.specs.State.{settled, touched, written, overlay};
ghost use Rattle.disk_core.specs.Choice.{IsChosen, pending_count};

use crate::image::{chosen_image, count_pending};
use crate::{Choice, Extent};
use std::alloc::{AllocError, Global};
use std::marker::Model;

/// Contracts see it as the state of a disk.
#[derive(Drop)]
pub(crate) struct Contents {
    /// What a read gives.
    bytes: Vec<u8>,
    /// What was on the disk at the last sync, once something was written since.
    synced: Vec<u8>,
    /// What was written since the last sync.
    pending: Vec<Extent>,
    /// The greatest length since the last sync, once something was written since.
    greatest: u64,
}

impl Model for Contents {
    ghost use Rattle.disk_core.specs.State.{State};
    ghost use Rattle.disk_core.specs.Contents.{contents_state};

    ghost Value = { State };

    ghost view = { λ c. contents_state c.bytes.items c.synced.items c.pending.items c.greatest };
}

impl Contents {
    /// All these bytes are on the disk.
    pub(crate) fn settled(alloc: Global, bytes: Vec<u8>) -> Contents
        ensures { result ≡ settled bytes.items }
    {
        Contents {
            bytes,
            synced: Vec::new(alloc),
            pending: Vec::new(alloc),
            greatest: 0,
        }
    }

    /// What a read gives.
    pub(crate) fn bytes(&self) -> &[u8]
        ensures { result.now ≡ self.now.seen }
    {
        &self.bytes
    }

    /// The image that `choice` names.
    pub(crate) fn image(&self, alloc: Global, choice: Choice) -> Result<Vec<u8>, AllocError>
        ensures { IfOk result (λ image. IsChosen choice self.now image.items) }
    {
        if self.pending.is_empty() {
            let length = self.bytes.len() as u64;
            chosen_image(alloc, choice, &self.bytes, &self.bytes, &[], length)
        } else {
            chosen_image(
                alloc,
                choice,
                &self.bytes,
                &self.synced,
                &self.pending,
                self.greatest,
            )
        }
    }

    /// How many places a crash may leave as anything.
    #[tactic(auto, using(crate::proofs::PendingLemmas::pending_settled))]
    pub(crate) fn pending(&self) -> u64
        ensures { result ≡ pending_count self.now }
    {
        if self.pending.is_empty() {
            0
        } else {
            count_pending(&self.synced, &self.pending, self.greatest)
        }
    }

    /// Writes `bytes` from `at` on. Where memory runs out the bytes stay, and their place may be pending.
    pub(crate) fn write(&mut self, alloc: Global, at: usize, bytes: &[u8]) -> Result<(), AllocError>
        requires inside { at ≤ length self.old.seen }
        requires fits { at + length bytes.now < 2 ^ 64 }
        ensures done { OnOk result (self.new ≡ written self.old at bytes.now) }
        ensures half_done { OnErr result (
            (self.new ≡ self.old) ⊎ (self.new ≡ touched self.old at (length bytes.now) self.old.seen)) }
    {
        if self.pending.is_empty() {
            self.synced = self.bytes.to_vec(alloc)?;
            self.greatest = self.bytes.len() as u64;
        }
        let len = bytes.len() as u64;
        self.pending.push(Extent { at: at as u64, len })?;
        self.greatest = self.greatest.max(at as u64 + len);
        lay_over(&mut self.bytes, at, bytes)
    }

    /// Puts all bytes on the disk.
    pub(crate) fn sync(&mut self)
        ensures { self.new ≡ settled self.old.seen }
    {
        self.pending.clear();
    }
}

/// Lays `new` over `bytes` from `at` on, and past the end. Where memory runs out nothing changes.
fn lay_over(bytes: &mut Vec<u8>, at: usize, new: &[u8]) -> Result<(), AllocError>
    requires { at ≤ length bytes.old.items }
    ensures done { OnOk result (bytes.new.items ≡ overlay bytes.old.items at new.now) }
    ensures same { OnErr result (bytes.new.items ≡ bytes.old.items) }
{
    let inside = new.len().min(bytes.len() - at);
    bytes.extend_from_slice(&new[inside..])?;
    bytes[at..at + inside].copy_from_slice(&new[..inside]);
    Ok(())
}
