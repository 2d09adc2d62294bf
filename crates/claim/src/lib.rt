// Demand 3: the statement is specs/Claim.antt, its proof proofs/Demand.antt.
#![tactic(auto)]

pub mod joined;
