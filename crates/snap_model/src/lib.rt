//! What a run keeps as a snapshot, and what a run comes to that goes on from one. Definitions alone. See docs/SNAPSHOTS.md.
#![tactic(auto)]
