// The customer's three demands, what document 02's Points 1 and 2 add to them, and document 01's twelve questions, as theorems. No
// function stands here.
#![tactic(auto)]
