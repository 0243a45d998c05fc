//! A summary that goes on from frame to frame by the first bytes of each.

ghost use Rattle.std.specs.Prelude.{◌≡◌, ◌<◌, ◌^◌, Ok, Some, length, take, IfOk, IfSome};
ghost use Rattle.segment_core.specs.Frame.{Frame, frame_text};
ghost use Rattle.segment_core.specs.FrameHead.{front_len};
ghost use Rattle.segment_core.specs.Layout.{IsFrame};
ghost use Rattle.segment_core.specs.Tally.{MayFollow};
ghost use Rattle.stat_core.specs.Outline.{outline_of};
ghost use Rattle.stat_core.specs.Summary.{grown, tally_in, AreFew};

use crate::outline::{HEAD_LEN, read_outline};
use crate::summary::Summary;
use segment_core::{ScanFault, Shape};

impl Summary {
    /// That with the frame more whose gate is the first of these bytes, `FRONT_LEN` of them. What stands behind them is
    /// taken to be there. `None`: the gate is closed. Refused is a fault of the frame that these bytes show.
    pub fn with_front(self, shape: Shape, front: &[u8]) -> Result<Option<Summary>, ScanFault>
        requires few { AreFew self }
        requires wide { 0 < shape.width }
        requires placed { self.gate < 2 ^ 48 }
        requires long { length front.now ≡ front_len }
        ensures counted { (frame : Frame) → IsFrame shape frame → MayFollow (tally_in self) frame → take front_len (frame_text shape.format frame) ≡ front.now
            → result ≡ Ok (Some (grown shape self (outline_of frame))) }
        ensures few { IfOk result (λ next. IfSome next AreFew) }
        ensures later { IfOk result (λ next. IfSome next (λ more. (self.gate < more.gate) × (more.gate < 2 ^ 49))) }
    {
        let left = HEAD_LEN + shape.format.payload_limit() as u64;
        match read_outline(front, left, self.gate, shape, self.tally()) {
            Ok(Some((outline, payload_len))) => Ok(Some(self.grown(shape, outline, payload_len))),
            Ok(None) => Ok(None),
            Err(fault) => Err(fault),
        }
    }
}
