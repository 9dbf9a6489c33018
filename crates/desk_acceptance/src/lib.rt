//! Tests of what no command shows of a desk: its board's calls and how many plans a step judges at most; the text of a
//! plan; which texts are replies; copies; keepers of rows, in memory and over a file, and rows both ways; lanes that run
//! at once; the statuses of a desk that holds as much as it may; and connections over a desk that is lent, which the
//! program never lends.
#![tactic(auto)]

#[cfg(test)]
mod boards;
#[cfg(test)]
mod copies;
#[cfg(test)]
mod counting;
#[cfg(test)]
mod desks;
#[cfg(test)]
mod few;
#[cfg(test)]
mod files;
#[cfg(test)]
mod lines;
#[cfg(test)]
mod links;
#[cfg(test)]
mod meeting;
#[cfg(test)]
mod memory;
#[cfg(test)]
mod memory_desk;
#[cfg(test)]
mod orders;
#[cfg(test)]
mod plans;
#[cfg(test)]
mod replies;
#[cfg(test)]
mod rows;
#[cfg(test)]
mod sixteen;
#[cfg(test)]
mod statuses;
#[cfg(test)]
mod steps;
#[cfg(test)]
mod texts;
#[cfg(test)]
mod versions;
#[cfg(test)]
mod waiting;
