// Lists: what it is to be an element, what holds of each, and the laws of elements, parts and stores that the toolchain's own
// modules on lists lack. There is no code here; every other crate can use it.
#![tactic(auto)]
