ghost use Rattle.std.specs.Prelude.{◌≡◌, Some};
ghost use Rattle.exam_table.specs.Table.{pipes_text};

use std::fmt;

// The pipes that speak, by their keys.
#[derive(Clone, Copy)]
pub struct Pipes<'k>(pub &'k [u8]);

impl<'k> fmt::Display for Pipes<'k> {
    ghost output = { λ p. Some (pipes_text p.0.now) };

    fn fmt<W: fmt::Write>(&self, f: &mut fmt::Formatter<W>) -> fmt::Result {
        if self.0.is_empty() {
            return f.write_str("none");
        }
        f.write_str("pipe")?;
        for key in self.0 {
            write!(f, " {key}")?;
        }
        Ok(())
    }
}
