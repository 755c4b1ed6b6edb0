// No code: the file of a map and the record of a play as definitions, and the theorems that the reader gives them back.

#![tactic(auto)]
