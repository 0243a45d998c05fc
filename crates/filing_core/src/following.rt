//! `follow`: what a vector has, and then what comes, written as it comes.

ghost use Rattle.std.specs.Prelude.{◌≡◌, Some, None, IfErr, IfOk};
ghost use Rattle.std.specs.Option.{option_copied};
ghost use Rattle.filing_core.specs.Beside.{IsFollowDone, IsJustShared, FollowsFrom, FollowsEvents, IsNoPlace, IsPlaceOr};
ghost use Rattle.filing_core.specs.Commands.{IsFollowRun};

use crate::beside::status_of_follow;
use crate::filing::Filing;
use crate::polling::{Looks, Polling, open_polled};
use crate::reading::window_of;
use disk_core::SharedFile;
use files_core::Progress;
use follow_core::{Place, follow, follow_events, read_place};
use sentences::{BesideFault, Complaint};
use std::fs::File;
use std::io::Write;
use std::rt::Files;
use std::time::Clock;
use text_core::{Status, TextRecord};
use words_core::Following;

/// The place that a word is, if there is one.
fn place_of(after: Option<&str>) -> Result<Option<Place>, Complaint>
    ensures place { IfOk result (IsPlaceOr (option_copied after.entry)) }
    ensures none { IfErr result (λ complaint. (complaint ≡ Complaint.Beside BesideFault.NoPlace) × IsNoPlace (option_copied after.entry)) }
{
    let Some(word) = after else {
        return Ok(None);
    };
    match read_place(word.as_bytes()) {
        Some(place) => Ok(Some(place)),
        None => Err(Complaint::Beside(BesideFault::NoPlace)),
    }
}

impl<'a, F: Files<File = File> + Clock + AllocGlobal, P: Progress + Sync> Filing<'a, F, P> {
    /// Writes the records of an opened file, and those that come.
    fn follow_opened<R: TextRecord, W: Write>(
        &self,
        file: SharedFile,
        polling: Polling<'_, F>,
        from: u64,
        writer: &mut W,
    ) -> Result<Status, Complaint>
        ensures { IsJustShared file → IsFollowDone result polling.entry.looks (FollowsFrom R.form R.spelling.text_of from (W.contents writer.old) (W.contents writer.new)) }
    {
        let (mut file, mut polling) = (file, polling);
        let end = follow::<R, SharedFile, W, Polling<'_, F>>(
            self.alloc,
            &mut file,
            from,
            &mut polling,
            writer,
        );
        status_of_follow(end, &polling)
    }

    /// Writes the events of an opened file, and those that come.
    fn follow_events_of<R: TextRecord, W: Write>(
        &self,
        file: SharedFile,
        polling: Polling<'_, F>,
        after: Option<Place>,
        writer: &mut W,
    ) -> Result<Status, Complaint>
        ensures { IsJustShared file → IsFollowDone result polling.entry.looks (FollowsEvents R.form R.spelling.text_of after (W.contents writer.old) (W.contents writer.new)) }
    {
        let (mut file, mut polling) = (file, polling);
        let end = follow_events::<R, SharedFile, W, Polling<'_, F>>(
            self.alloc,
            &mut file,
            after,
            &mut polling,
            writer,
        );
        status_of_follow(end, &polling)
    }

    pub fn follow<R: TextRecord, W: Write>(
        &self,
        what: Following<'_>,
        looks: Looks,
        writer: &mut W,
    ) -> Result<Status, Complaint>
        ensures { IsFollowRun R.form (W.contents writer.old) (W.contents writer.new) result R.spelling what.entry looks }
    {
        match what {
            Following::Records { from } => {
                let window = window_of(from, None)?;
                let (file, polling) = open_polled(self.files, self.file, looks)?;
                self.follow_opened::<R, W>(file, polling, window.from, writer)
            }
            Following::Events { after } => {
                let after = place_of(after)?;
                let (file, polling) = open_polled(self.files, self.file, looks)?;
                self.follow_events_of::<R, W>(file, polling, after, writer)
            }
        }
    }
}
