//! Tests of the crates that the core of the engine stands on, by their public calls: copies of the data of
//! rule programs, rows of bindings, effects of firings and their entries, footprints, claims that
//! stand, places of working memory, and when choices last fired. What conditions accept and what runs come to, the program shows
//! where it can: that is in `cases/`.
#![tactic(auto)]

#[cfg(test)]
mod bindings;
#[cfg(test)]
mod claims;
#[cfg(test)]
mod commits;
#[cfg(test)]
mod copies;
#[cfg(test)]
mod effects;
#[cfg(test)]
mod footprints;
#[cfg(test)]
mod places;
#[cfg(test)]
mod refraction;
#[cfg(test)]
mod setting;
