// Laws of the running tally; no code.
#![tactic(auto)]
