// The laws of the calls: what holds of any rule on a table, and of any account with the backlog law. It has laws, and no code.

#![tactic(auto)]
