// The order of the arrangements: definitions in specs/, laws in proofs/. There is no code here; that of
// ranks is in `rank`, and that of the arrangement of a rank in `unrank`.
#![tactic(auto)]
