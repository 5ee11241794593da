// Definitions and theorems only, with no code: values, the eight rules, circuits and
// their solution, the machine, and why two offices agree. The definitions stand in specs/, the
// theorems in proofs/.
#![tactic(auto)]
