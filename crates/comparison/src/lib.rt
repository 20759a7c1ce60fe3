// What the programs that compare call: a row of calls of a table, and what each gave.
#![tactic(auto)]

mod answer;
mod call;
mod copying;
mod run;
mod tabulation;
mod words;
