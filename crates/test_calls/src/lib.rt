//! Tests of what programs in other languages call: what is read of directories, found of files, and made of images.
#![tactic(auto)]

#[cfg(test)]
mod answers;
#[cfg(test)]
mod checking;
#[cfg(test)]
mod images;
#[cfg(test)]
mod making;
#[cfg(test)]
mod noting;
#[cfg(test)]
mod reading;
