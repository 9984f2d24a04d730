// What tests answer, and what holds of a call that they let pass: definitions and laws, no code. pairs and what is above it stand on these, and not on the
// code that judges.
#![tactic(auto)]
