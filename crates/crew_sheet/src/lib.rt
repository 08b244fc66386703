// What a finding of `bad_bit` is worth on the cable crew's sheet, and where the crew has the body from (02, request 9). It has no code.

#![tactic(auto)]
