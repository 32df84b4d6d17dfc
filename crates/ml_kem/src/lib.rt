// No functions: noise bytes that are split and sampled give the polynomial of FIPS 203 (document 02, A.5), and n - 1 shares of each of its coefficients
// tell nothing.
#![tactic(auto)]
