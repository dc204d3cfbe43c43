//! Tests of `run` over files and sinks in memory, and once over real files: what each command
//! prints of worked inputs, and how a run ends that meets a bad line, a fault or a limit.
#![tactic(auto)]

#[cfg(test)]
mod bad_lines;
#[cfg(test)]
mod certificate_checks;
#[cfg(test)]
mod certificate_runs;
#[cfg(test)]
mod drills;
#[cfg(test)]
mod evidence;
#[cfg(test)]
mod fault_tables;
#[cfg(test)]
mod faults;
#[cfg(test)]
mod forecasts;
#[cfg(test)]
mod given;
#[cfg(test)]
mod limits;
#[cfg(test)]
mod many_traces;
#[cfg(test)]
mod page_load;
#[cfg(test)]
mod real;
#[cfg(test)]
mod replays;
#[cfg(test)]
mod reports;
#[cfg(test)]
mod rows;
#[cfg(test)]
mod running;
#[cfg(test)]
mod sessions;
#[cfg(test)]
mod summaries;
#[cfg(test)]
mod views;
#[cfg(test)]
mod watches;
