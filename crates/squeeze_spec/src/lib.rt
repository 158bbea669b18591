// Request 12 as definitions, in specs/; no code. The answer is of the catalogue's type.
#![tactic(auto)]
