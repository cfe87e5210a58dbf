// Executed cases: loading at its limits, and both stores driven through the same puts.
#![tactic(auto)]

#[cfg(test)]
mod tests;
