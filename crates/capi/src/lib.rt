// The record and run operations as C calls them: each returns 0, or the number of the refusal, and a refusal leaves
// every lent place as it was. `capi_c` exports them. C gets numbers and lent places, so an answer becomes a number here.
#![tactic(auto)]

mod answers; // an answer as a number
pub mod records; // records and their index
pub mod unitigs; // run lists and run bytes
