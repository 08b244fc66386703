// The register that bytes enter bit by bit, and its laws, for every width and polynomial: it has no code.

#![tactic(auto)]
