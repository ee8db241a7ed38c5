// The figures on days that the replies are known by.
ghost use Rattle.std.specs.Prelude.{◌≡◌, length};
ghost use Rattle.dispute.specs.Figures.{Figures, rows};

// How many rows the table has, each of which holds.
pub fn worked_figures() -> usize
    ensures value { result ≡ length rows }
    ensures theorem { Figures }
{
    10
}
