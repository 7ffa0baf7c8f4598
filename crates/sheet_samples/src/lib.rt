// Sample job sheets, and what the reader and the kind question answer on each. The answers are worked out by hand from the rules
// of the format, record by record.
#![tactic(auto)]

#[cfg(test)]
mod answer;
#[cfg(test)]
mod cuts;
#[cfg(test)]
mod frames;
#[cfg(test)]
mod job_faults;
#[cfg(test)]
mod kind_codes;
#[cfg(test)]
mod limits;
#[cfg(test)]
mod order;
#[cfg(test)]
mod other_kinds;
#[cfg(test)]
mod sample;
#[cfg(test)]
mod whole;
