// What each promise rules out is in specs/, two wrong answers for every public function; there is no code here.

#![tactic(auto)]
