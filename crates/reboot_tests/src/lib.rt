//! Reboots of pairs of memory and disk that are made by hand: stopped at each of their steps, and with each of their calls
//! on the disk failing. Beside them the looks at such pairs: what is counted, or which rule fails first.
#![tactic(auto)]

#[cfg(test)]
mod examine_tests;
#[cfg(test)]
mod pairs;
#[cfg(test)]
mod reboots;
#[cfg(test)]
mod rows;
#[cfg(test)]
mod same;
#[cfg(test)]
mod sweeps;
