// Worked cases and refusals, run as tests.
#![tactic(auto)]

#[cfg(test)]
mod comparison_cases;
#[cfg(test)]
mod filed;
#[cfg(test)]
mod filing_cases;
#[cfg(test)]
mod judging_cases;
#[cfg(test)]
mod view_cases;
