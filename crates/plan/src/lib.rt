// Inner: the plan of a build, over strings. There is no code here: specs/ has the order of the states and the store of
// outputs, proofs/ what is proved of them. The crates that build tables follow it.
#![tactic(auto)]
