// Examples that openings, books and limits are run on.
#![tactic(auto)]

#[cfg(test)]
mod of_books;
#[cfg(test)]
mod of_limits;
#[cfg(test)]
mod of_openings;
#[cfg(test)]
mod setup;
