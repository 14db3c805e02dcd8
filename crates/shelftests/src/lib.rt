#![tactic(auto)]

// Tests of the shelves, apart from them so that they are not proved twice.
#[cfg(test)]
mod fixed;
#[cfg(test)]
mod nested;
#[cfg(test)]
mod told;
