// What may be left of an image where a recovery was cut or reached memory in part, and what recovery makes of it: theorems in specs/ and proofs/; there is no code here.

#![tactic(auto)]
