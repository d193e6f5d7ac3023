//! What no clause of `ots_io` says: that its calls succeed with ample memory, that a failing call
//! leaves the next one whole.
#![tactic(auto)]

#[cfg(test)]
mod accepters;
#[cfg(test)]
mod dialers;
#[cfg(test)]
mod held;
#[cfg(test)]
mod links;
#[cfg(test)]
mod memory;
#[cfg(test)]
mod nonces;
#[cfg(test)]
mod shelves;
#[cfg(test)]
mod slots;
#[cfg(test)]
mod values;
#[cfg(test)]
mod whole;
