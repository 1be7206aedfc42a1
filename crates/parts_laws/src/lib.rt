// Laws, no code: a cut is published, filled, in the grammar, and joined again.
#![tactic(auto)]
