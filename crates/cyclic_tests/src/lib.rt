//! Runs of scripts with what they must write, and what no clause says of the program's words. In threads: that a run ends, that
//! it writes the same whatever the schedule, and that handlers of different workers run at the same time.
#![tactic(auto)]

#[cfg(test)]
mod help;
#[cfg(test)]
mod meeting;
#[cfg(test)]
mod refusing;
#[cfg(test)]
mod removals;
#[cfg(test)]
mod reports;
#[cfg(test)]
mod several;
#[cfg(test)]
mod sixteen;
#[cfg(test)]
mod stopping;
#[cfg(test)]
mod tests;
