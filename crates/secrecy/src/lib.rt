// No functions: specs/ says what it means that outputs tell nothing of a secret, and has the argument that shows it.
#![tactic(auto)]
