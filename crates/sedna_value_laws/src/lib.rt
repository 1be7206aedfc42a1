// Laws, no code: the texts of document 02, request 1, are read as what they mean, exactly.
#![tactic(auto)]
