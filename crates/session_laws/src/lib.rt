// Laws, no code: the session's machine follows the grammar.
#![tactic(auto)]
