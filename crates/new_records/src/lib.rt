#![tactic(auto)]
// What the writer's calls append: rows of fields, and names that are found or new.
mod naming;
mod rows;

pub use naming::{Before, EQUALS, NameParts, Numbered, ProbeNames, name_parts, named, probe_names};
pub use rows::{ROW2, ROW3, ROW7, equality, name_row, range_start, row};
