// The privacy of the head only: see specs/.
#![tactic(auto)]
