// Runs of two exchanges, as tests.
#![tactic(auto)]

#[cfg(test)]
mod tests;
