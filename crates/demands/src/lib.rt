// No code: what is promised, a file each in specs/, Main.antt first, and the proofs of it.
#![tactic(auto)]
