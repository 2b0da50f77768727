// Laws of parity units: what is written is sound, one flipped bit is found and put right, and a padded copy gives the same; no code.
#![tactic(auto)]
