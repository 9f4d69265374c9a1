// What each contract says of itself is in specs/: nothing is asked of a caller, and what it learns is the equation; there is no code here.

#![tactic(auto)]
