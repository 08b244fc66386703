// What a passed check is worth: which differences between two bodies the check always finds, and which it misses (02, request 8). It has no code.

#![tactic(auto)]
