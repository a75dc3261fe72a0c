#![tactic(auto)]

// Linear algebra over every field, as definitions and lemmas: specs/ and proofs/ hold it, and there is no code.
