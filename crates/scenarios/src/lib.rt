//! Worked examples of planning, of slots, of searches and of scripts, as tests.
#![tactic(auto)]

#[cfg(test)]
mod lists;
#[cfg(test)]
mod planning;
#[cfg(test)]
mod scripts;
#[cfg(test)]
mod searches;
#[cfg(test)]
mod shows;
#[cfg(test)]
mod slots;
#[cfg(test)]
mod strips;
