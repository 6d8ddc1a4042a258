// Mathematics alone: no code stands here. What it says is in specs/, and what that means together in proofs/.
#![tactic(auto)]
