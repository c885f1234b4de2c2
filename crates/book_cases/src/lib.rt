// Books in bytes, at the edges of what can be: read, looked up, made longer, written.
#![tactic(auto)]

#[cfg(test)]
mod tables;
#[cfg(test)]
mod tests;
