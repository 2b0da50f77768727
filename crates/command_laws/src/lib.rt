// Laws of commands: reader and writer agree; no code.
#![tactic(auto)]
