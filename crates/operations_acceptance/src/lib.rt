//! Tests of moments, sources, texts and weather reports; of look-ups and limits of the airline's tables, what deferred
//! equipment costs, alternates, changes of plans, the weather of releases, the fuel that a leg requires and the rules of
//! time. The faults of each table, minima, fuel, what each report says and what is advised are tested by the cases of
//! `call_vectors`, and plans, due items and files of candidates by those of `scenarios`.
#![tactic(auto)]

#[cfg(test)]
mod changes;
#[cfg(test)]
mod deferred;
#[cfg(test)]
mod failing;
#[cfg(test)]
mod faults;
#[cfg(test)]
mod filed;
#[cfg(test)]
mod flights;
#[cfg(test)]
mod held;
#[cfg(test)]
mod look_ups;
#[cfg(test)]
mod moments;
#[cfg(test)]
mod name_lengths;
#[cfg(test)]
mod needs;
#[cfg(test)]
mod outside;
#[cfg(test)]
mod readers;
#[cfg(test)]
mod readings;
#[cfg(test)]
mod releases;
#[cfg(test)]
mod required;
#[cfg(test)]
mod rosters;
#[cfg(test)]
mod swept;
#[cfg(test)]
mod times;
