//! Examples of waiting lists that are run, in a crate of their own so that `lists` is not proved a second time for them.
#![tactic(auto)]

#[cfg(test)]
mod tests;
