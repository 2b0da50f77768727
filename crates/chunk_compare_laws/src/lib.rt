// Laws of the comparison of two recordings; no code.
#![tactic(auto)]
