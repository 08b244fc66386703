// The static library that C links: each export calls the function of the same name in a library of this repository, and states its clauses again.

#![tactic(auto)]

mod lines;
mod listening;
mod logs;
mod messages;
mod weights;
