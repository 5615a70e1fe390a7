// That odd and crosswise pairs do what 02's L6 says, and even ones what they did: no code. The statements are in specs, the theorems in proofs.
#![tactic(auto)]
