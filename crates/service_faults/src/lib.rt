//! Why services are disabled: of each declared service the first reason against it, its references taken into account.
#![tactic(auto)]

mod fault;
mod faults;
mod judgement;
mod judging;
mod own;
mod places;

pub use fault::ServiceFault;
pub use faults::{judge_services, service_faults};
pub use judgement::Judgement;
