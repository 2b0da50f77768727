// Laws of chunks and of the reading of a recording; no code.
#![tactic(auto)]
