// Health packets: judged, read and written.
#![tactic(auto)]

pub mod packet;
