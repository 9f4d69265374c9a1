// The starred runs of document 01 are a table in specs/, with one theorem; there is no code here.

#![tactic(auto)]
