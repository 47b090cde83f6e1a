// Examples that the gate runs: field ranges, readings at their edges, what is printed of them, and
// the rules of the theories with their refusals.
#![tactic(auto)]

#[cfg(test)]
mod asking;
#[cfg(test)]
mod fields;
#[cfg(test)]
mod readings;
#[cfg(test)]
mod theories_equality;
#[cfg(test)]
mod theories_pair;
#[cfg(test)]
mod theories_rows;
#[cfg(test)]
mod theories_table;
