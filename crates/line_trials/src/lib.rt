// Examples that tables, lines and positions are run on.
#![tactic(auto)]

#[cfg(test)]
mod of_lines;
#[cfg(test)]
mod of_rules;
