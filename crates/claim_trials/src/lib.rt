// Examples of claims that the gate runs: branches in order, limits, closed claims, sheets.
#![tactic(auto)]

#[cfg(test)]
mod claims;
#[cfg(test)]
mod sending;
#[cfg(test)]
mod sheets;
