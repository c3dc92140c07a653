// How a row of numbers is written on a program's standard output.
#![tactic(auto)]

ghost use Rattle.std.specs.Prelude.{◌∷◌, Some};
ghost use Rattle.std.specs.List.{flat_map};
ghost use Rattle.std.specs.Fmt.{decimal};

use std::fmt;

// Numbers in decimal, each after a space.
#[derive(Clone, Copy, Debug)]
pub struct Row<'a>(pub &'a [u64]);

impl fmt::Display for Row<'_> {
    ghost output = { λ row. Some (flat_map (λ x. 32 ∷ decimal x) row.0.now) };

    fn fmt<W: fmt::Write>(&self, f: &mut fmt::Formatter<W>) -> fmt::Result {
        for x in self.0 {
            write!(f, " {x}")?;
        }
        Ok(())
    }
}
