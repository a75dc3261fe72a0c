// What collections of equations answer, the logs of their calls, and what every log promises.
#![tactic(auto)]

pub mod agreement;
pub mod answer;
pub mod refusal;
