// No code: what holds of every network's record, and the theorems about one network.
#![tactic(auto)]
