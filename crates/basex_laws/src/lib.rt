// Laws, no code: BaseX is read, written, told and refused exactly, by the encodings.
#![tactic(auto)]
