//! What no clause states about shards, about reports that are joined, judged, compared and shown, and about a watch. Expected
//! values are worked out by hand.
mod compare;
mod cut;
mod expect;
mod hashing;
mod joining;
mod lines;
mod page;
mod reading;
mod suites;
mod times;
mod unread;
mod watching;
mod write_faults;
