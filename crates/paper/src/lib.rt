#![tactic(auto)]

// Inner: the mathematics that every other crate stands on. There is no code here: specs/ has the definitions that a
// reader must believe and the claims about them, proofs/ the proofs of the claims.
