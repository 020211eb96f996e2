// Definitions and laws alone: edges that span numbered vertices, and which of them Kruskal keeps.
#![tactic(auto)]
