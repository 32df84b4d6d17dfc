// No functions: the step records of a sample.
#![tactic(auto)]
