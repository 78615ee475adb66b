//! Tests of typed lifting.
#![tactic(auto)]

#[cfg(test)]
mod cores;
#[cfg(test)]
mod integers;
#[cfg(test)]
mod lists;
#[cfg(test)]
mod tests;
#[cfg(test)]
mod texts;
