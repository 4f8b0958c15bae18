// The machine of document 01: its definitions stand in specs/, its theorems in specs/ and proofs/. It has no code.
#![tactic(auto)]
