//! The rows of the utilities: words with their invocations, and what each utility writes, over cuttings of short texts.
#![tactic(auto)]

#[cfg(test)]
mod any_grep;
#[cfg(test)]
mod args;
#[cfg(test)]
mod bytes;
#[cfg(test)]
mod columns;
#[cfg(test)]
mod cuttings;
#[cfg(test)]
mod grep;
#[cfg(test)]
mod groups;
#[cfg(test)]
mod invocations;
#[cfg(test)]
mod pastes;
#[cfg(test)]
mod regex;
#[cfg(test)]
mod slices;
#[cfg(test)]
mod sort;
#[cfg(test)]
mod streams;
#[cfg(test)]
mod test;
