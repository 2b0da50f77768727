// Laws of health packets: what is written is read; no code.
#![tactic(auto)]
