// Examples that sessions are run on.
#![tactic(auto)]

#[cfg(test)]
mod of_calls;
#[cfg(test)]
mod of_files;
