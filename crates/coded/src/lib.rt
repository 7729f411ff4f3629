// The label's figures of the gate's own states, as statements of specs/, proved in proofs/. There is no code.
#![tactic(auto)]
