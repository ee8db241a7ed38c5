// The figures that the standard pile is known by.
ghost use Rattle.std.specs.Prelude.{◌≡◌, length};
ghost use Rattle.payment.specs.Figures.{Figures, rows};

// How many rows the table of figures has. The standard pile pays what each of them says.
pub fn worked_figures() -> usize
    ensures value { result ≡ length rows }
    ensures theorem { Figures }
{
    6
}
