// No code: how a call of the manager is taken apart, and histories of calls.
#![tactic(auto)]
