//! Lemmas about the orders of tasks: stamps, what lists show of them, and what keeps a table
//! consistent. The laws above cite them.
#![tactic(auto)]
