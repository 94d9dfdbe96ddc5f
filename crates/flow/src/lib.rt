// Document 01 as definitions, in specs/, and the theorems about them, in proofs/. No code that runs.
#![tactic(auto)]
