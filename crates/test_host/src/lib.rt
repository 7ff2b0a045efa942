//! Tests of the files of the machine over a disc in memory: reading back what was written, what is stored and when, and
//! how files and folders are found. Then what a power cut leaves, what a terminal shows, and that each call that fails
//! is reported.
#![tactic(auto)]

#[cfg(test)]
mod calls;
#[cfg(test)]
mod cuts;
#[cfg(test)]
mod disc;
#[cfg(test)]
mod disc_file;
#[cfg(test)]
mod files;
#[cfg(test)]
mod hard_links;
#[cfg(test)]
mod names;
#[cfg(test)]
mod power_cut;
#[cfg(test)]
mod progress;
#[cfg(test)]
mod screen;
