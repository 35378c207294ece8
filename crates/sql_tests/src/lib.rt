//! Tests of tables that stand in a file, by SQL: what no script can say, whose tables stand in memory. There is no code here.
#![tactic(auto)]

#[cfg(test)]
mod asking;
#[cfg(test)]
mod damage;
#[cfg(test)]
mod earlier;
#[cfg(test)]
mod files;
#[cfg(test)]
mod in_a_row;
#[cfg(test)]
mod parts;
#[cfg(test)]
mod refused;
