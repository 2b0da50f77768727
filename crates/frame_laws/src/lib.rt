// Laws of frames; no code.
#![tactic(auto)]
