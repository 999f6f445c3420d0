//! Tests of the nodes of indexes and of their trees, by the public calls of `index_node` and `index_tree`.
#![tactic(auto)]

#[cfg(test)]
mod edits;
#[cfg(test)]
mod names;
#[cfg(test)]
mod node_edits;
#[cfg(test)]
mod nodes;
#[cfg(test)]
mod root_directory;
#[cfg(test)]
mod slots;
pub mod table;
#[cfg(test)]
mod trees;
