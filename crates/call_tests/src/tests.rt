//! What no clause says: that calls succeed, worked values, real files, and threads that meet, wait, wake and lose nothing.

mod beside;
mod blocks;
mod broken_crew;
mod closing;
mod committing;
mod crews;
mod directory;
mod files;
mod filling;
mod growths;
mod joined;
mod lent;
mod limits;
mod looks;
mod meeting;
mod noting;
mod opening;
mod snapshots;
mod squares;
mod two;
mod vaults;
mod waiting;
mod waking;
