// No code: document 01's small examples, computed by the definitions of the record call (specs/Examples).
#![tactic(auto)]
