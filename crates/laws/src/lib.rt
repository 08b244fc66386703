// Laws that every crate cites: it has no code.

#![tactic(auto)]
