// Laws on plain lists and on records in lists of numbers, for the proofs of other crates. There is no function here.
#![tactic(auto)]
