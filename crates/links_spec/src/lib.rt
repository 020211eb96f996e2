// Definitions and laws alone: the links that are made between the ends of lines.
#![tactic(auto)]
