// Facts in ascending order, each once, and their keys (document 02, Point 3): definitions and laws.
#![tactic(auto)]
