// Milliseconds and ticks, and what a plan allows in them (document 01, 'Grains'): one millisecond is `limit` ticks, one unit costs
// `period` ticks, and nothing is divided before the last step.

#![tactic(auto)]

pub mod units; // milliseconds and ticks: two kinds of number
pub mod round; // division, rounded up
pub mod plan; // a plan, its limits and prices, and the conversions between the two kinds
