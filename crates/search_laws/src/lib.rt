#![tactic(auto)]
// No code: what the lent lists stand for, and for each way through a rule the law that ties the code to the search as written.
