// Demands 1, 2 and 3 of the product, each sentence a named theorem under specs/.
#![tactic(auto)]
