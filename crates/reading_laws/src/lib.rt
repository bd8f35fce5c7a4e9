// Laws of the table files: reading inverts writing, and each answer to a file is told by what the file holds. There is no code here.
#![tactic(auto)]
