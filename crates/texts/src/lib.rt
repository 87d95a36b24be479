// Facts, paths and cells as text.
#![tactic(auto)]

#[cfg(test)]
mod tests;
pub mod wording;
