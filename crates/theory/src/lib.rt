#![tactic(auto)]
// Definitions and theorems only: specs/ says what document 01 says, proofs/ holds what is proved of it.
