// Request 11 as definitions, in specs/; no code.
#![tactic(auto)]
