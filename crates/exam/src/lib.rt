// No functions: specs/ has the starred reference values of documents 01 and 02, and the theorem that they follow from the definitions.
#![tactic(auto)]
