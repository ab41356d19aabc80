// The edge table only: see specs/.
#![tactic(auto)]
