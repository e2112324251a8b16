// A page of a day's plans: the call list_page.
#![tactic(auto)]

pub mod page;
