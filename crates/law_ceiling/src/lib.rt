// A ceiling for a contract (document 02, Item 7): the most units that a subscriber gets in a stretch of time, and the runs that reach it.
// It has definitions and laws, and no code.

#![tactic(auto)]
