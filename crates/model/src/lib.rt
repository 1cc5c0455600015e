//! What each call of the workbook and of the audit means, and the law over all lists of calls: definitions and theorems, with no computation.
#![tactic(auto)]

mod answers;
mod laws;

pub use answers::{Advance, Judgement, Remainder, Report, Stop, Verdict};
pub use laws::{
    advance_stops_for_its_reason, audit_passes_exactly, calls_granted_exactly,
    host_answers_in_order, law_over_runs, limits_as_stated, only_relate_and_advance_change,
    refusals_come_in_order, remainders_go_down, runs_keep_limits,
};
