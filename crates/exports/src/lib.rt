// What a C program may call: the sheet of a listing, and how many cells are settled. Each is told in an `Answer`.
#![tactic(auto)]

pub mod answer;
mod calls;
mod on_page;
mod settling;
