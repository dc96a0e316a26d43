// Which derivations the check accepts (document 01, "Derivation lines and their check"): definitions and laws.
#![tactic(auto)]
