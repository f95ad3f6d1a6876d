//! The definitions: histories, live rows, answers, replies, and runs of sessions and scripts.
#![tactic(auto)]

mod clauses;
mod counts;
mod elements;
mod laws;
mod lines;
mod query;
mod refusal;
mod resolving;

pub use counts::Counts;
pub use laws::{
    answers_are_determined, bounds_cut_nothing_off, columns_of_tables_are_their_own,
    creates_are_allowed, faults_are_of_the_outside, inserts_are_parted, legal_fronts,
    lines_do_not_depend_on_order, live_rows_only_grow, merges_add_up,
    partitions_are_of_their_table, places_never_fall, plain_tables_show_their_rows,
    refusals_have_a_cause, refusals_have_numbers, refused_statements_add_what_they_count,
    rows_are_of_their_table, runs_stay_as_counts_rise, runs_stay_as_histories_grow,
    scripts_run_in_one_way, sorting_keeps_each_key,
};
pub use lines::{explain_line, ok_line, refusal_line, rows_line};
pub use predicate;
pub use query::{Query, query_of};
pub use refusal::{Bound, Reason, Refusal, Room};
pub use resolving::resolve;
