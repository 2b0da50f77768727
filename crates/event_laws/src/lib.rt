// Laws of event packets: what is written is read, what is read is written again, ignored bytes change nothing, and times are exact; no code.
#![tactic(auto)]
