// What follows from the definitions of crate reading without any code. There is no function here: specs/ has the theorems.
#![tactic(auto)]
