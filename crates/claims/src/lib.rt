// Theorems about the rules; no code. The statements stand in specs/, their proofs in specs/Laws/.
#![tactic(auto)]
