//! Laws of all bytes: each list of them is a log or a part, or has a fault, and logs and parts have a store or a fault.
//! And laws of a crash: what it leaves of logs, what is never lost, what a checkpoint and its server may leave out, and
//! how a server goes on, crash after crash.
//!
//! Each law is a function with an empty body, whose contract is the law. For a crash begin with `specs/Crashes.antt`,
//! for going on with `specs/Resuming.antt`, `specs/Lives.antt`, `specs/Names.antt`, `specs/PartFiles.antt`,
//! `specs/Fresh.antt` and, over `mt_writer`, `specs/Writing.antt`, which have the definitions, and with
//! docs/DURABILITY.md, which says what a server must do for the laws to hold.
#![tactic(auto)]

mod checkpoints;
mod crashes;
mod damage;
mod fresh;
mod lives;
mod part_files;
mod readings;
mod resuming;
mod verdicts;
mod writing;

pub use checkpoints::{
    a_sound_checkpoint_changes_nothing, acknowledged_is_in_the_history, old_records_may_go,
};
pub use crashes::{
    a_crash_loses_nothing_below_the_cutoff, a_cut_log_is_a_log, acknowledged_is_safe,
};
pub use damage::{a_changed_bit_is_seen, a_changed_part_is_no_part};
pub use fresh::{a_fresh_start_goes_on, a_fresh_start_is_the_same_store};
pub use lives::{a_crash_of_names, a_life_of_crashes, versions_may_be_timestamps};
pub use part_files::{
    a_checkpoint_written_while_running, a_crash_makes_no_checkpoint_valid,
    a_resume_leaves_the_chosen_parts, dropping_old_parts, standing_on_a_checkpoint,
    the_parts_of_a_fresh_start,
};
pub use readings::{some_part, some_reading};
pub use resuming::{
    a_resumed_log_is_a_log, an_update_after_a_resume, deleting_makes_no_checkpoint_valid,
    logs_may_come_in_any_order, resuming_changes_nothing,
};
pub use verdicts::some_verdict;
pub use writing::{calls_are_a_life, what_a_crash_leaves};
