//! The rules on id tags: which are known, how they are judged, how operators put, drop and grant them.
#![tactic(auto)]

mod judgement;
mod plan;
mod refusal;

pub use judgement::{Judged, Purpose, find_tag, judge, judge_with_owner};
pub use plan::{Grant, MAX_TAG, plan_drop, plan_grant, plan_put, plan_revoke};
pub use refusal::refuse_tag;
