// The layout of sheets: definitions in specs/, theorems in proofs/, and no code. What a sheet's bytes are, the writer and the
// reader, the causes of refusal 1 to 7, and the index.
#![tactic(auto)]
