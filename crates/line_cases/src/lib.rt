// Lines and wishes at the edges of what can be: read, written, held against a wish.
#![tactic(auto)]

#[cfg(test)]
mod tables;
#[cfg(test)]
mod tests;
