//! Tests of whole runs. They cover drawn logs against the plain program, workers that are held at
//! gates, what runs leave, failing readers and writers, a refused plan, texts in windows, and calls
//! that workers share.
#![tactic(auto)]

#[cfg(test)]
mod draws;
#[cfg(test)]
mod fakes;
#[cfg(test)]
mod gates;
#[cfg(test)]
mod histories;
#[cfg(test)]
mod hostile;
#[cfg(test)]
mod line;
#[cfg(test)]
mod random;
#[cfg(test)]
mod runs;
#[cfg(test)]
mod shared_calls;
#[cfg(test)]
mod soak;
#[cfg(test)]
mod windows;
