// The starred cases, as one table over the definitions, and one proof over it. No code.
#![tactic(auto)]
