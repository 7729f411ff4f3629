// A list in an array, its unused room zero: definitions and laws over any element and any capacity. There is
// no code here.
#![tactic(auto)]
