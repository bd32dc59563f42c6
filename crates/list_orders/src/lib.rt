//! Orders of numbers and of items: searches for the best, lists by stamp and by rank, lists of
//! distinct numbers, and the lemmas about them. It knows nothing of a kernel.
#![tactic(auto)]
