// Examples that the crates below are run on.
#![tactic(auto)]

#[cfg(test)]
mod of_calendar;
#[cfg(test)]
mod of_days;
#[cfg(test)]
mod of_terms;
#[cfg(test)]
mod of_text;
