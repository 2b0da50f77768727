// The packets of a recording by place: where they stand, and which of them are sound and of a type; no code.
#![tactic(auto)]
