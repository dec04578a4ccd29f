//! What stands behind a reply of a script: an event of what has happened, by what its step asked,
//! or what an earlier line entered. It says nothing of how requests travel.
#![tactic(auto)]
