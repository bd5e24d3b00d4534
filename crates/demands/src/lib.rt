// No code: what the installer asked for, each sentence a theorem about the definitions that the contracts of the calls cite.
#![tactic(auto)]
