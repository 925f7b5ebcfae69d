// Examples of noise: runs beside a plain array of bits, channels at their edges, colours.
#![tactic(auto)]

#[cfg(test)]
mod colours;
#[cfg(test)]
mod plain;
#[cfg(test)]
mod runs;
