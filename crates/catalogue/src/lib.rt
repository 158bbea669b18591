// Request 8 as definitions, in specs/; no code.
#![tactic(auto)]
