// Inner: no code. What a build makes of the accepted patterns, and that these tables agree with them.
#![tactic(auto)]
