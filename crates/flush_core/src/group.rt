//! The begin of a group: the next growths that are known, as many as one payload holds.

ghost use Rattle.std.specs.Prelude.{◌≡◌, ◌+◌, ◌-◌, ◌≤◌, ◌<◌, ◌^◌, None, false, List, length, take, drop, map, IfOk, IfErr, OnOk, OnErr};
ghost use Rattle.std.specs.List.{AllByRecursion};
ghost use Rattle.segment_core.specs.Shape.{limit_of};
ghost use Rattle.segment_core.specs.Written.{group_frame, payload_len};
ghost use Rattle.pen_core.specs.Pen.{BeginsFrame, IsUnchanged};
ghost use Rattle.pen_core.specs.Refusals.{first_refusal, ready_lines, is_full};
ghost use Rattle.record_core.specs.Limits.{payload_limit};
ghost use Rattle.directory_core.specs.Chain.{total};
ghost use Rattle.directory_core.specs.Limits.{place_limit};
ghost use Rattle.flush_core.specs.Flusher.{IsFlusherOf, untaken};
ghost use Rattle.flush_core.specs.Group.{IsGreatest};
ghost use Rattle.flush_core.specs.Refusals.{IsTakeFault};

use crate::fault::FlushFault;
use crate::flusher::Flusher;
use crate::row::push_growths;
use book_core::Live;
use directory_core::Pass;
use disk_core::Disk;
use pen_core::PenFault;
use record_core::{Record, width_of};
use std::alloc::{AllocError, Global};

/// The group that is next: how many growths it has, and the bytes of its payload.
#[derive(Clone, Copy)]
struct NextGroup {
    count: u64,
    payload: usize,
}

/// The group of the growths from that number on, as many as one payload of so many bytes holds.
fn next_group<R: Record>(live: &Live<R>, pass: &mut Pass<R>, from: u64, limit: usize) -> NextGroup
    requires of { pass.old.of ≡ live.now.directory }
    requires from { from ≤ length pass.old.entries }
    requires limit { (payload_limit ≤ limit) × (limit ≤ 2 ^ 24) }
    ensures same { pass.new ≡ pass.old }
    ensures greatest { IsGreatest R.form.width limit (map (λ e. e.records) (drop from pass.old.entries)) result.count }
    ensures payload { result.payload ≡ payload_len R.form.width (take result.count (map (λ e. e.records) (drop from pass.old.entries))) }
    ensures some { from < length pass.old.entries → 0 < result.count }
    ensures filled { AllByRecursion (λ growth. 0 < length growth) (map (λ e. e.records) (drop from pass.old.entries)) }
    ensures bounds { (length pass.old.entries ≤ place_limit) × (total pass.old.entries ≤ pass.old.of.limit) }
{
    let known = pass.known();
    let mut group = NextGroup {
        count: 0,
        payload: 4,
    };
    for number in from..known {
        let Some(entry) = live.entry(pass, number) else {
            unreachable!()
        };
        let len = 4 + entry.records().len() * width_of::<R>();
        if len > limit - group.payload {
            return group;
        }
        group.payload += len;
        group.count += 1;
    }
    group
}

/// The records of the growths from that number up to the other: each growth's as one slice.
fn next_growths<'a, R: Record>(
    alloc: Global,
    live: &'a Live<R>,
    pass: &mut Pass<R>,
    from: u64,
    to: u64,
) -> Result<Vec<&'a [R]>, AllocError>
    requires of { pass.old.of ≡ live.now.directory }
    requires known { (from ≤ to) × (to ≤ length pass.old.entries) }
    ensures same { pass.new ≡ pass.old }
    ensures growths { IfOk result (λ row. map (λ growth. growth.now) row.items ≡ map (λ e. e.records) (take (to - from) (drop from pass.old.entries))) }
{
    let mut row = Vec::with_capacity(alloc, (to - from) as usize)?;
    push_growths(&mut row, live, pass, from, to);
    Ok(row)
}

impl<R: Record, D: Disk> Flusher<R, D> {
    /// Begins to commit the next growths that it knows and hasn't taken as one group: in order, as many as one payload of
    /// the file holds. Answers how many; 0, and nothing is begun, where it knows none. It looks for none: `look` does.
    ///
    /// Refused, in this order: `Pen(Broken)`; `Pen(Busy)`, while a log job is in hand; then, where there is one to take,
    /// `Pen(FileFull)`; `Pen(Memory)`.
    pub fn take_group(&mut self, live: &Live<R>) -> Result<u64, FlushFault>
        requires of { IsFlusherOf (D.keeps self.old.pen.disk) live.now self.old }
        ensures taken { IfOk result (λ n. self.new.taken ≡ self.old.taken + n) }
        ensures greatest { IfOk result (λ n. IsGreatest R.form.width (limit_of self.old.pen.shape.format) (untaken self.old) n) }
        ensures some { IfOk result (λ n. self.old.taken < length self.old.pass.entries → 0 < n) }
        ensures begun { IfOk result (λ n. 0 < n → BeginsFrame (group_frame R.form (take n (untaken self.old))) self.old.pen self.new.pen) }
        ensures none { IfOk result (λ n. n ≡ 0 → self.new ≡ self.old) }
        ensures room { IfOk result (λ n. 0 < n → is_full self.old.pen (payload_len R.form.width (take n (untaken self.old))) ≡ false) }
        ensures idle { OnOk result (first_refusal (ready_lines self.old.pen) ≡ None) }
        ensures same { (self.new.pass ≡ self.old.pass) × (self.new.mark ≡ self.old.mark) × (self.new.settled ≡ self.old.settled) × (self.new.before ≡ self.old.before) }
        ensures opening { self.new.opening ≡ self.old.opening }
        ensures refused { IfErr result (λ fault. IsTakeFault R.form.width self.old fault) }
        ensures unchanged { OnErr result (IsUnchanged self.old.pen self.new.pen × (self.new.taken ≡ self.old.taken)) }
    {
        if let Err(fault) = self.pen.ready() {
            return Err(FlushFault::Pen(fault));
        }
        let limit = self.pen.format().payload_limit();
        let group = next_group(live, &mut self.pass, self.taken, limit);
        if group.count == 0 {
            return Ok(0);
        }
        if self.pen.is_full(group.payload) {
            return Err(FlushFault::Pen(PenFault::FileFull));
        }
        let to = self.taken + group.count;
        let Ok(row) = next_growths(self.alloc, live, &mut self.pass, self.taken, to) else {
            return Err(FlushFault::Pen(PenFault::Memory));
        };
        if let Err(fault) = self.pen.begin_group(row.as_slice()) {
            return Err(FlushFault::Pen(fault));
        }
        self.taken = to;
        Ok(group.count)
    }
}
