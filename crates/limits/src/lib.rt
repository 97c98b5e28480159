// What is refused of a request, in two steps: by the tests that need no number of the scaler, and by the others.
#![tactic(auto)]

pub mod refusal;
pub mod scale;
pub mod scaled;
