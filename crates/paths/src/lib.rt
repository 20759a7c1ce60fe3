// Call-matched paths, the table that finds what they reach, and the check of a trail: each theorem as the contract of a function.
#![tactic(auto)]

ghost use Rattle.std.specs.Prelude.{◌≡◌, ℕ, ◌*◌, ◌≤◌, List, length};
ghost use Rattle.paths.specs.Supergraph.{Listings};
ghost use Rattle.paths.specs.Theorem.{Tabulates};
ghost use Rattle.paths.specs.Trail.{Trails};
ghost use Rattle.paths.specs.Rows.{AnyRow};
ghost use Rattle.paths.specs.Calls.{AnyCalls};
ghost use Rattle.paths.specs.Check.{Checks};
ghost use Rattle.paths.specs.Memory.{Rec, Writes};
ghost use Rattle.paths.specs.Tabled.{newly_in};
ghost use Rattle.paths.specs.Does.{Handed};
ghost use Rattle.paths.specs.Law.{LawFrom, Sound, TheLaw};
ghost use Rattle.paths.specs.Exactly.{ExactRows};
ghost use Rattle.paths.specs.Checked.{TheCheck};
ghost use Rattle.paths.specs.Usage.{Usable};

pub mod analysis;
pub mod worklist;

// The graph of a lawful program is lawful.
pub fn listings()
    ensures { Listings }
{}

// What a settled table has found is what call-matched paths reach.
pub fn tabulates()
    ensures { Tabulates }
{}

// The trail of a found cell is a call-matched path.
pub fn trails()
    ensures { Trails }
{}

// What holds after any row of calls.
pub fn any_row()
    ensures { AnyRow }
{}

// What holds after any list of calls, refused ones included.
pub fn any_calls()
    ensures { AnyCalls }
{}

// The check of moves passes the call-matched paths and no others.
pub fn checks()
    ensures { Checks }
{}

// Writing a record to memory is putting an entry into the table.
pub fn writes()
    ensures { Writes }
{}

// The law over every row of calls.
pub fn the_law()
    ensures { TheLaw }
{}

// A closed table has found what is reached, after every row of calls.
pub fn exact_rows()
    ensures { ExactRows }
{}

// The check of words is exact.
pub fn the_check()
    ensures { TheCheck }
{}

// What a caller may carry from call to call leads to the law.
pub fn usable()
    ensures { Usable }
{}

// The form of the clause on open: H stands for what the arguments mean.
pub fn opens(points: u16, facts: u8)
    ensures { (H : Handed) → Sound H → H.points ≡ points → H.facts ≡ facts → (memory : List Rec) → points * facts * facts ≤ length memory → LawFrom H (newly_in points facts memory) }
{}
