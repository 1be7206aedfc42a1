// Laws, no code: reading and writing are exact, and refuse exactly when a refusal is due.
#![tactic(auto)]
