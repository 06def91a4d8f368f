// Worked examples of the calls of the book.
#![tactic(auto)]

#[cfg(test)]
mod advancing;
#[cfg(test)]
mod amending;
#[cfg(test)]
mod asking;
#[cfg(test)]
mod cancelling;
#[cfg(test)]
mod crossing;
#[cfg(test)]
mod entering;
#[cfg(test)]
mod extension;
#[cfg(test)]
mod listing;
#[cfg(test)]
mod opening;
#[cfg(test)]
mod pegging;
#[cfg(test)]
mod precedence;
#[cfg(test)]
mod room;
#[cfg(test)]
mod samples;
#[cfg(test)]
mod taking;
#[cfg(test)]
mod viewing;
