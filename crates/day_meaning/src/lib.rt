// What the day program prints, and what the lent bytes are afterwards: definitions in specs/, theorems in proofs/, and no code.
#![tactic(auto)]
