// Inner: no code. What the searches give over tables that agree with a list of patterns.
#![tactic(auto)]
