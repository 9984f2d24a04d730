// Gate records written and read: specs/ says how the two fit each other, and what the contracts of the reader and the writer leave open, which
// is nothing; proofs/ shows it. There is no code here: the reader and the writer are crates below this one.
#![tactic(auto)]
