// Examples of claim files that the gate runs: every verdict and every refusal.
#![tactic(auto)]

#[cfg(test)]
mod cuts;
#[cfg(test)]
mod limits;
#[cfg(test)]
mod lines;
#[cfg(test)]
mod pairs;
