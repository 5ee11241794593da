// Definitions and theorems only: the openings and the calls on lent bytes, and the three demands on them. The definitions
// stand in specs/, the theorems in proofs/.
#![tactic(auto)]
