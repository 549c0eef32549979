// Demand 3: two ends over a channel that loses, repeats and reorders. There is no code here; specs/ has it all.
#![tactic(auto)]
