// Derivation lines as bytes (document 01, "Derivation lines and their check"): definitions and laws. Six fields and byte 10, 31 bytes a line.
#![tactic(auto)]
