// No code: what `cantrace` writes is a history of calls, of which the demands hold.
#![tactic(auto)]
