//! The law of the desk: a desk is consistent at every moment, so programs that run side by side can't see each other's
//! half-done work; and what a crash leaves of a run is a prefix of its commits. The crate has definitions (docs/MODEL.md),
//! lemmas, and laws that call nothing.
#![tactic(auto)]

mod asking;
mod causes;
mod consistency;
mod current;
mod isolation;
mod run_law;

pub use asking::{
    asking_is_isolated, asking_is_serial, asking_stays_consistent, asking_tells_the_machine,
    instructions_ask_alike, isolation_rests_on_rules, runs_ask_alike,
};
pub use causes::{ends_have_causes, turns_end_for_cause};
pub use consistency::{
    broken_cycles_were, contested_cycles_close, desks_stay_consistent,
    fine_rows_ask_for_their_lines, idle_where_inactive, permitted_is_free, runs_stay_consistent,
    somebody_can_go_on, unrefused_asks_nothing, write_bits_hold_pages,
};
pub use current::{
    commits_change_no_line, commits_leave_others, holders_see_current, one_list_is_current,
    rollbacks_give_back, rows_change_their_lines, rows_run_on_current,
};
pub use isolation::{commits_tell_the_machine, runs_are_isolated, side_by_side_is_serial};
pub use run_law::{a_crash_leaves_a_prefix, a_doubt_leaves_all};
