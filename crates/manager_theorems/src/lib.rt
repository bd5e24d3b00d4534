// No code: the theorems about the public calls of the manager.
#![tactic(auto)]
