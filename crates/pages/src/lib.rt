// Texts of any bytes that grow.
#![tactic(auto)]

pub mod page;
#[cfg(test)]
mod tests;
