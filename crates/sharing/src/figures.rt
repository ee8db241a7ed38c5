// Worked figures, proved of both rules.
ghost use Rattle.std.specs.Prelude.{◌≡◌, length};
ghost use Rattle.sharing.specs.Figures.{rows, Figures};

// How many worked figures there are. Each is what the rules give.
pub fn worked_figures() -> usize
    ensures value { result ≡ length rows }
    ensures theorem { Figures }
{
    2
}
