// For every public call, that its promise leaves one answer: theorems in proofs/. There is no code here.
#![tactic(auto)]
