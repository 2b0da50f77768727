// Laws of reels; no code.
#![tactic(auto)]
