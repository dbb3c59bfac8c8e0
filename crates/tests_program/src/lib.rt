//! The program's commands as a user runs them: nothing but tests, most of them transcripts.
#![tactic(auto)]

#[cfg(test)]
mod tests;
