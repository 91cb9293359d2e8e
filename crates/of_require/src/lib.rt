//! Requirements of a switch: what no frame, each frame or some frame does that it receives (OpenFlow 1.3.5, 5.1).
#![tactic(auto)]

mod answers;
mod deciding;
mod doing;
mod json;
mod junit;
mod laws;
mod line;
mod packets;
mod reading;
mod refusal;
mod requirement;
mod words;

pub use answers::{Answer, answer_all, worst};
pub use deciding::{Decision, Shown, Verdict, decide};
pub use json::requirements_as_json;
pub use junit::requirements_as_junit;
pub use laws::verdicts_are_right;
pub use line::{Line, read_requirement, read_requirements};
pub use refusal::{NoRequirement, NoRequirements, Refusal, Why};
pub use requirement::{Demand, Quantifier, Requirement};
pub use words::requirements_in_words;
