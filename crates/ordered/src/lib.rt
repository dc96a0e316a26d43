// Numbers in ascending order, and one more put among them: definitions and laws.
#![tactic(auto)]
