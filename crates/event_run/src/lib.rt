// The run over an event file: it opens the account that the file names and makes the call of each record.
#![tactic(auto)]

pub mod journal;
pub mod journal_run;
mod listing;
mod opening;
mod post;
pub mod posted;
pub mod run;
pub mod stopped;
