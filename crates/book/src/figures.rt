// Worked figures, proved of the rules.
ghost use Rattle.std.specs.Prelude.{◌≡◌, ◌+◌, length};
ghost use Rattle.book.specs.Figures.{InvoiceFigures, PayinFigures, invoices, payins};

// How many worked figures there are, on invoices and on payins. Each is what the rules give.
pub fn worked_figures() -> usize
    ensures value { result ≡ length invoices + length payins }
    ensures invoices { InvoiceFigures }
    ensures payins { PayinFigures }
{
    4
}
