//! Tests of what a session adds, finds and prints, by public calls alone: batches named by many
//! workers, counterexamples, whether claims are shown, the texts of certificates, and sessions that
//! carry out jobs.
#![tactic(auto)]

#[cfg(test)]
mod catalogues;
#[cfg(test)]
mod certificate_texts;
#[cfg(test)]
mod claims;
#[cfg(test)]
mod first_refuters;
#[cfg(test)]
mod given_sessions;
#[cfg(test)]
mod given_tables;
#[cfg(test)]
mod named_batches;
#[cfg(test)]
mod refuters;
#[cfg(test)]
mod session_faults;
#[cfg(test)]
mod session_steps;
#[cfg(test)]
mod sessions;
#[cfg(test)]
mod verified_sessions;
#[cfg(test)]
mod worked_batches;
