// What the verdict "admitted" promises of what the public functions return: laws alone, by their contracts.
#![tactic(auto)]
