//! What no clause of `ots_real` says: that the real forms move the bytes of real files and
//! connections, which failures of the system they meet, and that a peer is cut off in time.
#![tactic(auto)]

#[cfg(test)]
mod callers;
#[cfg(test)]
mod cut_short;
#[cfg(test)]
mod failures;
#[cfg(test)]
mod fake_files;
#[cfg(test)]
mod fake_net;
#[cfg(test)]
mod files;
#[cfg(test)]
mod finishing;
#[cfg(test)]
mod folder;
#[cfg(test)]
mod holding;
#[cfg(test)]
mod limits;
#[cfg(test)]
mod lost;
#[cfg(test)]
mod sockets;
#[cfg(test)]
mod synced;
#[cfg(test)]
mod system;
