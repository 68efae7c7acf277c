//! Tests of files, outputs and sequences, by values from outside and by ends that fail. What the program shows of names
//! and numbers is in `cases/`.
#![tactic(auto)]

#[cfg(test)]
mod files;
#[cfg(test)]
mod outputs;
#[cfg(test)]
mod sequences;
#[cfg(test)]
mod system_files;
