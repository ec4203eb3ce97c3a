// Worked examples as two proved tables, and tests that run them through the public calls.
#![tactic(auto)]

ghost use Rattle.std.specs.Prelude.{◌≡◌, length};
ghost use Rattle.rehearsal.specs.Cave.{example_stations};
ghost use Rattle.rehearsal.specs.Rounds.{WorkedRounds};
ghost use Rattle.rehearsal.specs.Table.{Worked};

// How many stations the example cave has; its contract names the table of worked examples.
#[tactic(auto, using(crate::proofs::Examples::worked))]
pub fn example_size() -> usize
    ensures value { result ≡ length example_stations }
    ensures table { Worked }
{
    6
}

// How many units the examples of the rounds have; its contract names the table of their worked examples.
#[tactic(auto, using(crate::proofs::Rounds::worked_rounds))]
pub fn example_units() -> usize
    ensures value { result ≡ 4 }
    ensures table { WorkedRounds }
{
    4
}

#[cfg(test)]
mod line_tests;
#[cfg(test)]
mod tests;
