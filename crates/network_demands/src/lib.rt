// No code: the words of demand 3, one network's part in each call, and demand 3 for one network.
#![tactic(auto)]
