// Inner: no code. A day's work from the pattern list to the matches.
#![tactic(auto)]
